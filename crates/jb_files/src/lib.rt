//! The six files of an area as real files in a folder: the trusted edge below the journal.
//!
//! Contracts see how often a call failed, and nothing of what the files hold. The spelling of the extensions is that of
//! the header file that is there.
#![tactic(auto)]

mod disk;
mod fault;
mod folder;
mod identity;
mod lock;
mod names;
mod real;
mod spelling;
mod whole;

pub use disk::FolderDisk;
pub use fault::OpenFault;
