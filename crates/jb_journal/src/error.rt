//! What opening finds behind the gate, and why it is refused.
ghost use Rattle.std.specs.Prelude.{◌≡◌};
ghost use Rattle.jb_journal.specs.declared.error.JournalError.TheVariants.{StoreFault as store_fault};
ghost use Rattle.jb_journal.specs.Recover.{error_of};

use jb_disk::DiskFailed;
use jb_redo::RecordError;
use thiserror::Error;

/// What [`recover`](crate::recover) found: a closed gate, or an open one, whose record it has done: the version of the
/// journal, and the number of the change, which is 0 in version 1.
#[derive(Clone, Copy, Debug, PartialEq, Eq)]
pub enum Recovered {
    Closed,
    Replayed { version: u32, change: u64 },
}

/// Why [`recover`](crate::recover) is refused. It takes no memory, so that there is no want of it.
#[derive(Clone, Copy, Debug, PartialEq, Eq, Error)]
pub enum JournalError {
    /// The gate is open and the journal holds no record: the field at byte `at` of .JNL, from 0, is cut off or breaks a rule.
    #[error("the journal's record stops at byte {at}")]
    BadRecord { at: u64 },
    /// The disk failed; its count of faults rose.
    #[error("the disk failed")]
    StoreFault,
}

impl From<DiskFailed> for JournalError {
    ghost from_gives = { λ _ error. error ≡ store_fault };

    fn from(_: DiskFailed) -> JournalError {
        JournalError::StoreFault
    }
}

impl From<RecordError> for JournalError {
    ghost from_gives = { λ refusal error. error ≡ error_of refusal };

    fn from(refusal: RecordError) -> JournalError {
        match refusal {
            RecordError::Bad { at } => JournalError::BadRecord { at },
            RecordError::StoreFault => JournalError::StoreFault,
        }
    }
}
