//! What the calls on an area do: a command's reply and the state after it, and the history of an area, legal where each entry
//! follows from those before it.
//!
//! The layers above may rely on the definitions in `specs/`. Those that write a post take its MSGID and its attributes from
//! here ([`posted_msgid`], [`posted_attribute`]). What an area is stands in `jb_state`.
#![tactic(auto)]

mod command;
mod entry;
mod posted;
mod reply;

pub use command::{Asked, Command, Field};
pub use entry::{Entry, Outcome};
pub use posted::{posted_attribute, posted_msgid};
pub use reply::{Letter, Reply};
