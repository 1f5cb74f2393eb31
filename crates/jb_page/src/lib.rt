//! Pages: short texts that one node sends to another, in one queue of 64 pages for each node.
//!
//! Each node's thread has a pager, which sends to any node and takes what waits for its own. What a pager sent to a queue, and what
//! it took, exist in the contracts alone. Between any two steps, of each sender and each receiver, what was taken and then what
//! waits is what was sent, in order (`specs/Rule.antt`); closing with every pager shows it of all queues (`PagesInOrder`).
#![tactic(auto)]

mod closing;
mod hand;
mod laws;
mod page;
mod pager;
mod pages;
mod queue;
mod rule;
mod view;

pub use laws::serials_rise;
pub use page::{Page, PageError};
pub use pager::{Pager, Pages};
