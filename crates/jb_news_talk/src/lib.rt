//! What a news connection says and asks, as one function of the lines of its reader and of what is answered (RFC 3977).
//!
//! The layer above may rely on this: whatever the pieces in which the bytes come, what a [`NewsTalk`] has handed out is what the definition of
//! a conversation in `specs/` says of all of them, with these answers (`NewsHasTalked`). Lists are asked for in pieces of 100 messages, and what
//! each tells is owed before the next is asked.
#![tactic(auto)]

mod answering;
mod articles;
mod choosing;
mod commands;
mod laws;
mod listing;
mod moving;
mod newsgroups;
mod place;
mod talk;
mod telling;
mod turn;

pub use laws::{lists_are_whole, news_is_never_refused, news_only_reads, news_sees_open_only};
pub use place::{Chosen, NewsPlace, NewsStage, ShownBy, Told};
pub use talk::NewsTalk;
