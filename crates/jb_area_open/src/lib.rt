//! The opening of an area: what a crash has left is made good, the files are read, and the journal is prepared.
//!
//! The layer above may rely on this: [`open_area`] answers with an area at rest over the files to which the base replays, or
//! hands the disk back with the first thing that is wrong, its number and its place ([`OpeningError`]). Wherever it is stopped,
//! a crash leaves files that open to just what they might have opened to before, so it may be begun again.
//!
//! It makes the device calls of `recover`, `decode` and `prepare` and no others: six syncs and at most two calls for the gate,
//! four questions for a length, the reads of `decode`, one a window where headers stand in order, and at most two calls for
//! the journal's length and version. Behind an open gate the record is done besides; a journal of version 1, or of at most 16
//! bytes, is given its head by four calls. No text is read.
#![tactic(auto)]

mod error;
mod laws;
mod loading;
mod opening;

pub use error::OpeningError;
pub use laws::{backups_are_opened, unsigned_bases_are_refused, what_opens_is_not_refused};
pub use opening::open_area;
