//! A run of the board, from the settings to all disks put back: at the console with one session ([`local`]), or at ports with many
//! nodes, a packer, and a server of news where the settings have a port for it ([`serve_nodes`]), and each area backed up once where there
//! is a folder for that.
//!
//! The layer above may rely on this: either nobody is served, the first refusal is told ([`RunError`]) and all that was handed out is
//! back; or the settings are read, each area is opened over the disk that the host has for it and shared among the workers, in order,
//! the caller, or the callers of each door and the packer, have been served on areas whose histories have all of it, and everything
//! is closed and put back; of the pages that nodes sent each was taken, or is unread when they are closed. An area goes on from just
//! what its files open to, and its disk comes back with what its history has made of them; where one is refused, those before it are
//! closed.
#![tactic(auto)]

mod areas_error;
mod claiming;
mod closing;
mod console;
mod dealing;
mod error;
mod laws;
mod lines;
mod local_end;
mod meanings;
mod node_pages;
mod nodes;
mod nodes_end;
mod opening;
mod parting;
mod settings;
mod sharing;
mod targets;
mod telling;

pub use console::local;
pub use error::RunError;
pub use laws::{each_page_reaches_its_node, open_boards_are_served};
pub use local_end::LocalEnd;
pub use meanings::meaning;
pub use nodes::serve_nodes;
pub use nodes_end::NodesEnd;
