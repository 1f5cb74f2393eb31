//! The copying of a base onto the disk of its backup, in parts, while the base goes on.
//!
//! The layer above may rely on this: from Ok of [`Copier::begin`] to the last write of [`Copier::finish`] the target is unsigned at each moment, then a
//! crash leaves it so or the whole backup, and from Ok on the whole backup. That opening refuses what is unsigned is for that layer to show. It stands
//! on the device alone, and knows of the files only which byte signs the headers.
#![tactic(auto)]

mod begin;
mod copier;
mod copying;
mod error;
mod signing;
mod source;
mod texts;

pub use copier::{Copier, PART_BYTES};
pub use error::BackupError;
pub use source::Source;
