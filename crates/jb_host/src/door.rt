//! The trait of a door.
ghost use Rattle.std.specs.Prelude.{◌≡◌, IsErr, IfOk, OnErr};
ghost use Rattle.jb_bytes.specs.Fault.{HasCause};
ghost use Rattle.jb_host.specs.Gate.{Accepts, FailsToGive, Gate, HangsUp};

use crate::Link;

/// The door gave no link; its count of faults rose.
#[derive(Clone, Copy, Debug, PartialEq, Eq)]
pub struct DoorFailed;

/// What a door answers.
#[derive(Debug, Drop)]
pub enum Accepted<L> {
    /// The link of a caller.
    Call(L),
    /// No caller comes any more.
    Shut,
}

/// What gives the links of one caller after another. `accept` may wait for a caller.
pub trait Door {
    type Link: Link;

    /// Its counts, whether it is shut, and where it tells them the links to come and those that were hung up.
    ghost gate: { Self → Gate };

    /// The call of `accept` that comes next is one that it was told to fail, as a door in memory is for a test.
    ghost fails_next: { Self → Type 0 } = { λ _. ⊥ };

    /// The link of the next caller, or that the door is shut, which comes only where it has no call left.
    fn accept(&mut self) -> Result<Accepted<Self::Link>, DoorFailed>
        ensures ok { IfOk result (λ accepted.
            Accepts Self.Link.wire (gate self.old) accepted (gate self.new)) }
        ensures err { OnErr result (FailsToGive (gate self.old) (gate self.new)) }
        ensures listed { fails_next self.old → IsErr result }
        ensures cause { HasCause (gate self.old).faults (gate self.new).faults result };

    /// Ends a link that it gave.
    fn hang_up(&mut self, link: Self::Link)
        ensures { HangsUp (Self.Link.wire link) (gate self.old) (gate self.new) };

    /// The port at which callers reach it, where it has one.
    fn port(&self) -> Option<u16> {
        None
    }
}
