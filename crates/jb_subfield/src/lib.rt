//! Which bytes are the subfields of a JAM message header, and where they are cut (JAM, "SubFields").
//!
//! The layer above may rely on this: [`decode`] gives the list whose bytes these are, and [`SubfieldError::Cut`] comes
//! exactly where there is none, at the place of the first subfield that is not whole, which [`cut_of`] tells without a copy.
//! A list of subfields is a `jb_bytes::Subfields`, which keeps its bytes as they stand on disk and lends them.
#![tactic(auto)]

mod coding;
mod error;
mod size;

pub use coding::{cut_of, decode};
pub use error::SubfieldError;
pub use size::headed_length;
