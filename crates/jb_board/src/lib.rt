//! The program over any host: what the words of a command line mean, what is asked of the host, what is printed, and with which
//! status the run ends.
//!
//! [`board`] is a whole run. Its contract says all of it, for every list of words (`specs/Run.antt`). The program `board` hands in
//! the words and the real host.
#![tactic(auto)]

mod command;
mod fault;
mod laws;
mod meaning;
mod top;

pub use fault::{Fault, Line};
pub use laws::runs_are_complete;
pub use top::board;
