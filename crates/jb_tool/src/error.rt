//! Why a tool is refused.
ghost use Rattle.std.specs.Prelude.{◌≡◌};
ghost use Rattle.jb_image.specs.declared.error.OpenError.TheVariants.{OutOfMemory as no_memory, StoreFault as store_fault};
ghost use Rattle.jb_tool.specs.Backing.{of_backup};
ghost use Rattle.jb_tool.specs.Changing.{of_opening};
ghost use Rattle.jb_tool.specs.Recovered.{tool_of_journal};
ghost use Rattle.jb_tool.specs.declared.error.ToolError.TheVariants.{Open};

use jb_area_open::OpeningError;
use jb_backup::BackupError;
use jb_base::OutOfMemory;
use jb_disk::{DiskFailed, FileId};
use jb_image::OpenError;
use jb_journal::{JournalError, Stopped};

/// Why a tool is refused.
#[derive(Clone, Copy, Debug, PartialEq, Eq)]
pub enum ToolError {
    /// A change waits in the journal and cannot be done: the field of its record at byte `at` of .JNL, from 0, is cut off or
    /// breaks a rule. The files are as they were.
    BadJournal { at: u64 },
    /// The recovered files are not opened: they are refused, the disk failed, or there was no memory.
    Open(OpenError),
    /// A base is to be made where one of the four files of a base holds something. It is recovered, and else as it was.
    AlreadyThere,
    /// The live texts would have `length` bytes in all, which is more than .JDT may have. Nothing is changed but that the base
    /// is recovered.
    TextFull { length: u64 },
    /// A file of the disk for the backup, the lowest, is not empty. All of them are as they were.
    NotEmpty { file: FileId },
}

impl From<JournalError> for ToolError {
    ghost from_gives = { λ error refusal. refusal ≡ tool_of_journal error };

    fn from(error: JournalError) -> ToolError {
        match error {
            JournalError::BadRecord { at } => ToolError::BadJournal { at },
            JournalError::StoreFault => ToolError::Open(OpenError::StoreFault),
        }
    }
}

impl From<OpeningError> for ToolError {
    ghost from_gives = { λ error refusal. refusal ≡ of_opening error };

    fn from(error: OpeningError) -> ToolError {
        match error {
            OpeningError::BadJournal { at } => ToolError::BadJournal { at },
            OpeningError::Base(error) => ToolError::Open(error),
        }
    }
}

impl From<BackupError> for ToolError {
    ghost from_gives = { λ error refusal. refusal ≡ of_backup error };

    fn from(error: BackupError) -> ToolError {
        match error {
            BackupError::SourceFault | BackupError::TargetFault | BackupError::InDoubt => {
                ToolError::Open(OpenError::StoreFault)
            }
            BackupError::NotEmpty { file } => ToolError::NotEmpty { file },
            BackupError::OutOfMemory => ToolError::Open(OpenError::OutOfMemory),
        }
    }
}

impl From<DiskFailed> for ToolError {
    ghost from_gives = { λ _ refusal. refusal ≡ Open store_fault };

    fn from(_: DiskFailed) -> ToolError {
        ToolError::Open(OpenError::StoreFault)
    }
}

impl From<Stopped> for ToolError {
    ghost from_gives = { λ _ refusal. refusal ≡ Open store_fault };

    fn from(_: Stopped) -> ToolError {
        ToolError::Open(OpenError::StoreFault)
    }
}

impl From<OpenError> for ToolError {
    ghost from_gives = { λ error refusal. refusal ≡ Open error };

    fn from(error: OpenError) -> ToolError {
        ToolError::Open(error)
    }
}

impl From<OutOfMemory> for ToolError {
    ghost from_gives = { λ _ refusal. refusal ≡ Open no_memory };

    fn from(_: OutOfMemory) -> ToolError {
        ToolError::Open(OpenError::OutOfMemory)
    }
}
