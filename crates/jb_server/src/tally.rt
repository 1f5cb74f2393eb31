//! What is counted of callers.
ghost use Rattle.std.specs.Prelude.{◌≡◌, true};
ghost use Rattle.jb_server.specs.Tallies.{and_failed, tallied, no_tally};

use jb_session::SessionEnd;

/// How many callers were served, and how their sessions ended. Counts stop at their greatest value.
#[derive(Clone, Copy, Debug)]
pub struct Tally {
    /// All sessions.
    pub calls: u32,
    /// Ended by the user.
    pub quit: u32,
    /// Ended by a caller who hung up.
    pub hangup: u32,
    /// Ended after three log-ins that were refused.
    pub refused: u32,
    /// Ended at the most bytes that a session takes.
    pub spent: u32,
    /// Ended by a fault of the link.
    pub link_faults: u32,
    /// Ended for want of memory.
    pub no_memory: u32,
    /// Whether the door failed.
    pub door_failed: bool,
}

impl Tally {
    /// Nothing is counted yet.
    pub fn new() -> Tally
        ensures { result ≡ no_tally }
    {
        Tally {
            calls: 0,
            quit: 0,
            hangup: 0,
            refused: 0,
            spent: 0,
            link_faults: 0,
            no_memory: 0,
            door_failed: false,
        }
    }

    /// Counts a session under its end.
    pub fn count(&mut self, end: SessionEnd)
        ensures { self.new ≡ tallied self.old end }
    {
        self.calls = self.calls.saturating_add(1);
        match end {
            SessionEnd::Quit => self.quit = self.quit.saturating_add(1),
            SessionEnd::Hangup => self.hangup = self.hangup.saturating_add(1),
            SessionEnd::LoginRefused => self.refused = self.refused.saturating_add(1),
            SessionEnd::Spent => self.spent = self.spent.saturating_add(1),
            SessionEnd::LinkFault => self.link_faults = self.link_faults.saturating_add(1),
            SessionEnd::OutOfMemory => self.no_memory = self.no_memory.saturating_add(1),
        }
    }

    /// Notes that the door failed.
    pub fn fail(&mut self)
        ensures { self.new ≡ and_failed true self.old }
    {
        self.door_failed = true;
    }
}
