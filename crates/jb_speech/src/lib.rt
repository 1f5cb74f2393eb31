//! One side of a conversation: what it sends and asks is a function of the bytes of the other side and of what is answered.
//!
//! The loop above is generic over [`Speaker`] and proved once. A speaker knows no link, no area and no pager: it is given bytes and answers,
//! and hands out bytes and requests ([`Request`]).
#![tactic(auto)]

mod end;
mod request;
mod speaker;

pub use end::TalkEnd;
pub use request::{Act, AreaRequest, Request};
pub use speaker::{Heard, MOST_PIECE_BYTES, Speaker};
