//! An open area: what its files hold, in memory but for the texts, over the disk that has the files.
//!
//! The layer above may rely on this, where the disk tells what it holds. Each call of a command answers what the definition of
//! the command says (`Step` of `jb_model`), and leaves the area and its files as that says, all synced. Each is one change
//! through the journal, so a crash at any moment leaves what opens to the area before the call or to the one after it. A fault
//! of the device leaves the area in doubt between the two; [`OpenArea::reopen`] settles that and answers which. A call may be
//! done in two parts: [`OpenArea::begin`] decides, takes all memory and reads all that is needed, and writes nothing;
//! [`OpenArea::finish`] commits and takes no memory, or [`OpenArea::abandon`] drops it. `jb_decide` says what each command
//! comes to, and `jb_held` keeps what is in memory.
//!
//! The redo of a reading, a kill or a mark is made at opening and stays; that of a post, an edit, a relink or a pack is made for
//! it and goes with it. So a kill and a mark take no memory, and a large change leaves none behind.
//!
//! No call writes more than what changed. A kill writes 12 bytes of .JHR, a mark 16 of .JLR, a reading 20 of .JHR after one
//! read of .JDT; a post or an edit its header and subfields, its text, one index record and 20 bytes of .JHR at most beside; a
//! relink 12 bytes for each message whose links are others. A pack writes all of .JHR, .JDX and .JDT as they are then, after it has
//! copied the texts of the live messages into .NDT that are not there yet. None of them grows with the area but these two. Each is
//! one commit of `jb_journal`, and these are numbered from 1. [`OpenArea::pack_some`] copies some of the texts before, between
//! the calls of others, and commits nothing.
#![tactic(auto)]

mod area;
mod calls;
mod commands;
mod committing;
mod copying;
mod counting;
mod laws;
mod opening;
mod places;
mod source;
mod stage;

pub use area::OpenArea;
pub use jb_decide::AreaError;
pub use jb_pack::PACK_STEP_BYTES;
pub use laws::{backups_open, readings_keep_areas};
