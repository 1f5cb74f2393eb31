//! What may be wrong with a row.

use jb_base::OutOfMemory;

/// Why a row has no answer.
#[derive(Clone, Copy, Debug, thiserror::Error)]
pub enum RowError {
    /// There is no number at this place, counted from 0, or a larger one than is meant.
    #[error("word {0} is no such number")]
    Number(usize),
    /// There are no bytes at this place: no word, an odd number of hex digits, or another character among them.
    #[error("word {0} is no bytes")]
    Bytes(usize),
    /// The word at this place is none of those that may stand there.
    #[error("word {0} is not known")]
    Unknown(usize),
    /// There was no memory.
    #[error("out of memory")]
    OutOfMemory,
}

impl From<OutOfMemory> for RowError {
    fn from(_: OutOfMemory) -> RowError {
        RowError::OutOfMemory
    }
}
