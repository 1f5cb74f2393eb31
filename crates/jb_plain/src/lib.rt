//! The plain, slow program of an area: it runs a list of commands over an area as a plain value, and its contract is the
//! definition of what each command answers and does.
//!
//! Faster bodies are compared with it in tests. It keeps no index and sorts nothing: each question walks over all slots, and
//! the links of an area of n messages cost n³ looks at messages.
#![tactic(auto)]

mod edit;
mod fit;
mod held;
mod kill;
mod links;
mod mark;
mod message;
mod pack;
mod post;
mod read;
mod relink;
mod rule;
mod run;
mod slots;
mod state;

pub use fit::may_run;
pub use run::{ReplyList, run_slow};
