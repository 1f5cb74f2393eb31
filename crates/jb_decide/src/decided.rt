//! What a command comes to.
ghost use Rattle.std.specs.Prelude.{◌≡◌};
ghost use Rattle.jb_held.specs.Pending.{no_room};
ghost use Rattle.jb_state.specs.declared.change.Change.TheVariants.{Nothing};

use jb_held::{Pending, Room};
use jb_model::Reply;
use jb_state::Change;

/// The reply that was decided, and what is pending.
#[derive(Drop)]
pub struct Decided {
    pub reply: Reply,
    pub pending: Pending,
}

impl Decided {
    /// A reply that changes nothing.
    pub fn unchanged(reply: Reply) -> Decided
        ensures reply { result.reply ≡ reply }
        ensures change { result.pending.change ≡ Nothing }
        ensures room { result.pending.room ≡ no_room }
    {
        let pending = Pending {
            change: Change::Nothing,
            room: Room::none(),
        };
        Decided { reply, pending }
    }
}
