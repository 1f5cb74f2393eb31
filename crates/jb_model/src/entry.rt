//! The history of an area: what was asked of it and what came of it, in one order.

use crate::{Command, Reply};
use jb_base::User;

/// What came of a call: it was answered; or the device failed in it, so that its change may stand or not; or the area was
/// in doubt and could not be reopened, so that it was not begun. `faults` is the device's count as the entry is made.
pub enum Outcome {
    Replied(Reply),
    InDoubt { faults: u64 },
    NotBegun { faults: u64 },
}

// Whoever lets go of one does so in one call.
impl Drop for Outcome {
    fn drop(self) {
        match self {
            Outcome::Replied(_held) => {}
            Outcome::InDoubt { faults: _faults } => {}
            Outcome::NotBegun { faults: _faults } => {}
        }
    }
}

/// One entry of a history: a call, the `call`-th of its node, from 1; or the end of a doubt, in which the change that was
/// in doubt was found to stand or not.
pub enum Entry {
    Called {
        node: u32,
        call: u64,
        user: User,
        moment: u32,
        command: Command,
        outcome: Outcome,
    },
    Reopened {
        stands: bool,
    },
}

// Whoever lets go of one does so in one call.
impl Drop for Entry {
    fn drop(self) {
        match self {
            Entry::Called {
                node: _node,
                call: _call,
                user: _user,
                moment: _moment,
                command: _command,
                outcome: _outcome,
            } => {}
            Entry::Reopened { stands: _stands } => {}
        }
    }
}
