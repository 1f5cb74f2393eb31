//! The workers of a server: nodes, each of which serves one caller after another, one that serves readers of news, and a packer, which
//! also backs areas up.
//!
//! The layer above may rely on [`serve`]: each worker works on passes of its own, a node with its pager; every link that a door gave was
//! served as `jb_session` says, hung up and counted under its end; what the pager tells then is what was asked in those sessions
//! ([`pages_are_of_sessions`]); each ring of the bell for an area that is there is one pack, asked as the packer's next call, and behind
//! the first one the area is backed up, where it has a target ([`backups_are_of_rings`]). A worker ends when its door or its bell is shut,
//! or its door fails.
#![tactic(auto)]

mod backing;
mod laws;
mod node;
mod packer;
mod service;
mod serving;
mod tally;
mod telling;
mod worker;

pub use laws::{backups_are_of_rings, pages_are_of_sessions};
pub use service::Service;
pub use serving::serve;
pub use tally::Tally;
pub use worker::{NewsSlot, NodeSlot, PackSlot, Worker};
