//! Why an area is not opened.
ghost use Rattle.std.specs.Prelude.{◌≡◌};
ghost use Rattle.jb_area_open.specs.Opening.{of_journal};
ghost use Rattle.jb_area_open.specs.declared.error.OpeningError.TheVariants.{Base};
ghost use Rattle.jb_image.specs.declared.error.OpenError.TheVariants.{StoreFault as store_fault};

use jb_image::OpenError;
use jb_journal::{JournalError, Stopped};

/// Why [`open_area`](crate::open_area) is refused: the first of these that comes, the journal's before those of the files.
#[derive(Clone, Copy, Debug, PartialEq, Eq)]
pub enum OpeningError {
    /// The gate is open and the journal holds no record: the field at byte `at` of .JNL, from 0, is cut off or breaks a rule.
    /// Nothing was written.
    BadJournal { at: u64 },
    /// The files, once recovered, fail this test; or the disk failed, or there was no memory. Nothing was written but what
    /// recovery and the journal's head write.
    Base(OpenError),
}

impl From<JournalError> for OpeningError {
    ghost from_gives = { λ error refusal. refusal ≡ of_journal error };

    fn from(error: JournalError) -> OpeningError {
        match error {
            JournalError::BadRecord { at } => OpeningError::BadJournal { at },
            JournalError::StoreFault => OpeningError::Base(OpenError::StoreFault),
        }
    }
}

impl From<OpenError> for OpeningError {
    ghost from_gives = { λ error refusal. refusal ≡ Base error };

    fn from(error: OpenError) -> OpeningError {
        OpeningError::Base(error)
    }
}

impl From<Stopped> for OpeningError {
    ghost from_gives = { λ _ refusal. refusal ≡ Base store_fault };

    fn from(_: Stopped) -> OpeningError {
        OpeningError::Base(OpenError::StoreFault)
    }
}
