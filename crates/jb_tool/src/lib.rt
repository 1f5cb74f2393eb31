//! The tools of an operator: each works on the files of one base and says what is to be printed.
//!
//! The layer above may rely on this, where the disk tells what it holds. Each call first does the change that waits in the
//! journal, if one does. Then it prints what `tool_outcome` says of the area to which the base opens, and leaves the area that
//! it says. [`list`] and [`check`] leave the one that was there, and write nothing more. [`relink`] and [`pack`] have a command
//! done, as the sysop, and print its reply. Each takes the disk and hands it back. A crash at any moment leaves what opens as
//! before the call, or to the area that the tool leaves. [`backup`] copies the area that opens onto the empty disk of its backup,
//! and leaves it as it opens; a crash leaves that disk refused, or the whole backup.
//!
//! The workload of `load` is a stated list of commands of one user over an empty base (`load_run`), each done through the
//! journal, and eleven lines about the last area of that run and the replies that were counted, which are read off the area as it
//! is then. [`load`] runs it on a disk that it is handed, [`load_in_memory`] on one of its own.
#![tactic(auto)]

mod asking;
mod backing;
mod checking;
mod copying;
mod counting;
mod counts;
mod error;
mod laws;
mod listing;
mod load_base;
mod load_counting;
mod loading;
mod making;
mod reading;
mod running;
mod summary;
mod tending;
mod tool;
mod workload;

pub use backing::backup;
pub use checking::check;
pub use error::ToolError;
pub use laws::tools_are_complete;
pub use listing::list;
pub use loading::{load, load_in_memory};
pub use making::make;
pub use tending::{pack, relink};
pub use tool::{Tool, run};
