//! Who may do what in an area: one question, asked of a user, the area's rules, an act and the message that it is
//! about.
//!
//! The layers above may rely on this: [`allowed`] answers Ok exactly where none of the rules A1 to A6 refuses, and else
//! the first of them that does. Names are compared as [`jb_base::Name::same`] compares them. A call takes no memory;
//! its cost is that of comparing the user's name with two others, at most twice.
#![tactic(auto)]

mod asking;
mod parties;

pub use asking::allowed;
pub use jb_base::Action;
pub use parties::Parties;
