//! What a user asks about an area without changing it, and what is answered.

use crate::{Figures, Summaries};

/// A question about an area. Numbers are message numbers; a list holds the first `most` messages that fit and that the user
/// sees, in rising order.
#[derive(Clone, Copy, Debug, PartialEq, Eq)]
pub enum Question {
    /// The messages from this number on.
    List { from: u32, most: u32 },
    /// The messages from this number on that the user has not read.
    Unread { from: u32, most: u32 },
    /// The messages of the thread of this one; none where the user does not see it.
    Thread { number: u32, most: u32 },
    /// The messages from this number on whose receiver is the user.
    To { from: u32, most: u32 },
    /// The numbers of the area and of the user's mark.
    Figures,
}

/// The answer to a question: figures to [`Question::Figures`], else summaries.
pub enum Answer {
    Summaries(Summaries),
    Figures(Figures),
}

// Whoever lets go of one does so in one call.
impl Drop for Answer {
    fn drop(self) {
        match self {
            Answer::Summaries(_held) => {}
            Answer::Figures(_held) => {}
        }
    }
}

/// Why a call on a shared area has no reply.
#[derive(Clone, Copy, Debug, PartialEq, Eq)]
pub enum SharedFault {
    /// The device failed in the call; the area is in doubt.
    StoreFault,
    /// The history has as many entries as it may have.
    RunSpent,
    /// The published copies are not open to this user, so that nothing is answered; a later call may be.
    Barred,
}

/// The published copies are not open to this user now.
#[derive(Clone, Copy, Debug, PartialEq, Eq)]
pub struct Barred;

/// Why a question has no answer.
#[derive(Clone, Copy, Debug, PartialEq, Eq)]
pub enum LookError {
    /// As [`Barred`].
    Barred,
    /// The allocator gave no memory.
    OutOfMemory,
}
