//! Why a text is not that of a MSGID.
ghost use Rattle.std.specs.Prelude.{◌≡◌};
ghost use Rattle.jb_msgid.specs.declared.error.MsgIdError.TheVariants.{OutOfMemory as no_memory};

use jb_bytes::OutOfMemory;
use thiserror::Error;

/// Why [`parse`](crate::parse) gives no value.
#[derive(Clone, Copy, Debug, PartialEq, Eq, Error)]
pub enum MsgIdError {
    /// Behind the address a space, eight digits and the end do not follow: `at` is the first place where something else
    /// stands, the end among it.
    #[error("no serial number: wrong at {at}")]
    NoSerial { at: u64 },
    /// The text begins with a quote that nothing closes. `at` is the text's length.
    #[error("the quote is not closed before {at}")]
    BadQuote { at: u64 },
    /// There is no text, or a space or an empty pair of quotes begins it.
    #[error("the address is empty")]
    EmptyAddress,
    /// The allocator gave no memory.
    #[error("out of memory")]
    OutOfMemory,
}

impl From<OutOfMemory> for MsgIdError {
    ghost from_gives = { λ _ error. error ≡ no_memory };

    fn from(_: OutOfMemory) -> MsgIdError {
        MsgIdError::OutOfMemory
    }
}
