//! Why bytes are no list of subfields.

ghost use Rattle.std.specs.Prelude.{◌≡◌};
ghost use Rattle.jb_subfield.specs.declared.error.SubfieldError.TheVariants.{OutOfMemory as no_memory};

use jb_bytes::OutOfMemory;
use thiserror::Error;

/// Why [`decode`](crate::decode) gives no list.
#[derive(Clone, Copy, Debug, PartialEq, Eq, Error)]
pub enum SubfieldError {
    /// The subfield that begins at `at` does not end within the bytes: its eight bytes of head or its data are cut off.
    #[error("the subfield at {at} is cut off")]
    Cut { at: u32 },
    /// The allocator gave no memory.
    #[error("out of memory")]
    OutOfMemory,
}

impl From<OutOfMemory> for SubfieldError {
    ghost from_gives = { λ _ error. error ≡ no_memory };

    fn from(_: OutOfMemory) -> SubfieldError {
        SubfieldError::OutOfMemory
    }
}
