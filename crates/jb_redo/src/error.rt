//! Why a record is not taken.
ghost use Rattle.std.specs.Prelude.{◌≡◌};
ghost use Rattle.jb_redo.specs.declared.error.RecordError.TheVariants.{StoreFault as store_fault};

use jb_disk::DiskFailed;
use thiserror::Error;

/// Why [`test_record`](crate::test_record) and [`apply_record`](crate::apply_record) answer no Ok.
#[derive(Clone, Copy, Debug, PartialEq, Eq, Error)]
pub enum RecordError {
    /// The journal holds no record. The field that begins at byte `at` of .JNL, counted from 0, is cut off by the file's
    /// end or breaks a rule.
    #[error("the record stops at byte {at}")]
    Bad { at: u64 },
    /// The device failed in this call; its count of faults rose.
    #[error("the disk failed")]
    StoreFault,
}

impl From<DiskFailed> for RecordError {
    ghost from_gives = { λ _ error. error ≡ store_fault };

    fn from(_: DiskFailed) -> RecordError {
        RecordError::StoreFault
    }
}
