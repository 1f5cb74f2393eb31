//! Why a backup is refused.
ghost use Rattle.std.specs.Prelude.{◌≡◌};
ghost use Rattle.jb_backup.specs.declared.error.BackupError.TheVariants.{OutOfMemory as no_memory, TargetFault as target_fault};

use jb_bytes::OutOfMemory;
use jb_disk::{DiskFailed, FileId};
use thiserror::Error;

/// Why a backup is not made.
#[derive(Clone, Copy, Debug, PartialEq, Eq, Error)]
pub enum BackupError {
    /// The disk of the base failed in this call; its count of faults rose.
    #[error("the disk of the base failed")]
    SourceFault,
    /// The disk of the backup failed in this call; its count of faults rose.
    #[error("the disk of the backup failed")]
    TargetFault,
    /// It is not known what the base holds. No call of a copier answers it.
    #[error("it is in doubt what the base holds")]
    InDoubt,
    /// A file of the target, the lowest, is not empty. The target is as it was.
    #[error("the target is not empty")]
    NotEmpty { file: FileId },
    /// The allocator gave no memory. No call of a copier answers it.
    #[error("out of memory")]
    OutOfMemory,
}

impl From<OutOfMemory> for BackupError {
    ghost from_gives = { λ _ error. error ≡ no_memory };

    fn from(_: OutOfMemory) -> BackupError {
        BackupError::OutOfMemory
    }
}

// Each call of a disk but those of a source is one of the target.
impl From<DiskFailed> for BackupError {
    ghost from_gives = { λ _ error. error ≡ target_fault };

    fn from(_: DiskFailed) -> BackupError {
        BackupError::TargetFault
    }
}
