//! What a menu is given.

use jb_line::Line;
use jb_model::Reply;
use jb_page::{Page, PageError};
use jb_state::{Answer, SharedFault};

/// What a menu is given: a line, or what came of its last move.
pub enum Given {
    /// A line that was typed, without its end.
    Line(Line),
    /// The answer to [`crate::Move::Ask`].
    Reply(Reply),
    /// The answer to [`crate::Move::Look`].
    Answer(Answer),
    /// The answer to [`crate::Move::Count`]: how many messages of the area the user has not read.
    Count(u32),
    /// The answer to a request of the clock: seconds since 1970. No move of a menu asks for it.
    Moment(u32),
    /// The answer to [`crate::Move::Send`]: whether the page was sent.
    Sent(Result<(), PageError>),
    /// The answer to [`crate::Move::Take`]: the oldest page that waited, where there was one.
    Page(Option<Page>),
    /// In place of an area's answer, why there is none.
    Fault(SharedFault),
}

// Whoever lets go of one does so in one call.
impl Drop for Given {
    fn drop(self) {
        match self {
            Given::Line(_held) => {}
            Given::Reply(_held) => {}
            Given::Answer(_held) => {}
            Given::Count(_held) => {}
            Given::Moment(_held) => {}
            Given::Sent(_held) => {}
            Given::Page(_held) => {}
            Given::Fault(_held) => {}
        }
    }
}
