//! The journal: a change of an area's files is done as a whole or not at all, wherever it is stopped.
//!
//! The layers above make each change a [`Redo`](jb_disk::Redo) and give it to [`commit`]. Byte 0 of .JNL is the gate,
//! byte 1 tells its version, and behind the 16 bytes of its head stands the record of the last change. A commit writes version 2;
//! what version 1 left is recovered, and [`prepare`] makes version 2 of it. A crash at any moment leaves files that the record
//! behind an open gate, done once more, takes to what they were before the change or to what they are after it. [`recover`]
//! does that when an area is opened. After a fault [`settle`] tells which of the two, and takes the files there. [`prepare`]
//! gives a journal its head. None of them takes memory: what is written or copied goes through a buffer of 16,384 bytes on the
//! stack, as large behind the open gate as before it: where the stack cannot grow so far, the program ends before the gate is open.
//!
//! A commit of n lengths and c changed files makes 6 + n + r + w + c calls of the disk, 3 + c of them syncs. The record is
//! written by r calls and the pieces by w: one for each run of parts that follow each other in one file and have at most 16,384
//! bytes together, one for each longer part, and two for each 16,384 bytes that are copied. So r is 1 for a small change, and w
//! is how many places of the files it changes. A settling makes three calls, and stages 3 and 4 of the commit once more where the
//! gate is open. Behind a closed gate it makes five after an early stop, or seven where the journal has its 16 bytes alone. A
//! preparing makes two calls where the journal has its head, five where it has at most 16 bytes, and else six. Opening makes six
//! syncs and two calls for the gate, or one where the journal has at most 16 bytes; where the gate is open, the calls of
//! `test_record` and `apply_record`, four syncs more and four calls that close it.
#![tactic(auto)]

mod committing;
mod copying;
mod error;
mod filing;
mod gate;
mod gathering;
mod preparing;
mod recording;
mod recovery;
mod settling;
mod spelling;
mod stopped;

pub use committing::commit;
pub use error::{JournalError, Recovered};
pub use gate::is_gate_open;
pub use preparing::prepare;
pub use recovery::{recover, sync_all};
pub use settling::settle;
pub use stopped::Stopped;
