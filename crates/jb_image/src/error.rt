//! Why the files of a base are not opened.
ghost use Rattle.std.specs.Prelude.{◌≡◌};
ghost use Rattle.jb_image.specs.Answers.{unopened, refusal_of};
ghost use Rattle.jb_image.specs.declared.error.OpenError.TheVariants.{OutOfMemory as no_memory_to_open, StoreFault as store_failed};
ghost use Rattle.jb_image.specs.declared.error.ReadError.TheVariants.{OutOfMemory as no_memory, StoreFault as store_fault};

use jb_base::OutOfMemory;
use jb_disk::DiskFailed;
use std::alloc::{AllocError, AllocFailed};

/// Why the files of a base are not opened: the first test that fails. First come those of the files as a whole, in the order
/// in which they stand here; then those of each slot, in the order of the numbers, for one slot in this order too, but that
/// the place of a live message's subfields is tested behind signature and Revision; then the overlap. Nothing was written,
/// whichever it is. A number is the base number and the place of the slot in the index.
#[derive(Clone, Copy, Debug, PartialEq, Eq)]
pub enum OpenError {
    /// .JHR has fewer than 1,024 bytes, or is not there (JAM, "Header file").
    ShortHeader,
    /// .JHR does not begin with `JAM` and a zero byte.
    BadSignature,
    /// Basemsgnum is 0.
    BaseZero,
    /// The length of .JDX is no multiple of 8 (JAM, "Index file").
    IndexLength,
    /// The length of .JLR is no multiple of 16, or above 1,040,000 bytes (JAM, "Lastread file").
    LastreadLength,
    /// .JDX has more records than the area may have slots.
    TooManySlots,
    /// Basemsgnum and the number of index records together are above 4,294,967,295.
    NumberRange,
    /// The header of this number begins before byte 1,024 or ends past the end of .JHR or past 536,870,912 bytes, with
    /// its subfields where it is live; or a live message's SubfieldLen is above 262,144.
    HeaderPlace { number: u32 },
    /// The header of this number does not begin with `JAM` and a zero byte (JAM, "Message header").
    HeaderSignature { number: u32 },
    /// The Revision of the header of this number is not 1.
    HeaderRevision { number: u32 },
    /// The subfields of this live message are cut off; the one that is not whole begins `at` so many bytes behind the
    /// beginning of the first (JAM, "SubFields").
    Subfields { number: u32, at: u32 },
    /// The text of this live message has more than 1,048,576 bytes, or it has some and ends past the end of .JDT or
    /// past 1,073,741,824 bytes.
    TextPlace { number: u32 },
    /// The headers of these numbers share a byte: `b` is the lowest number that shares one with a lower number, and `a`
    /// the lowest that shares one with `b`.
    HeadersOverlap { a: u32, b: u32 },
    /// The device failed in this call; its count of faults rose.
    StoreFault,
    /// The allocator gave no memory.
    OutOfMemory,
}

/// What is wrong with the header that an index record names.
#[derive(Clone, Copy, PartialEq, Eq)]
pub(crate) enum Damage {
    HeaderPlace,
    HeaderSignature,
    HeaderRevision,
    Subfields { at: u32 },
    TextPlace,
}

impl Damage {
    /// The same, of the slot with this number.
    pub(crate) fn of_number(self, number: u32) -> OpenError
        ensures { result ≡ refusal_of number self }
    {
        match self {
            Damage::HeaderPlace => OpenError::HeaderPlace { number },
            Damage::HeaderSignature => OpenError::HeaderSignature { number },
            Damage::HeaderRevision => OpenError::HeaderRevision { number },
            Damage::Subfields { at } => OpenError::Subfields { number, at },
            Damage::TextPlace => OpenError::TextPlace { number },
        }
    }
}

/// Why a part of the files is not read.
#[derive(Clone, Copy, PartialEq, Eq)]
pub(crate) enum ReadError {
    StoreFault,
    OutOfMemory,
}

impl From<OutOfMemory> for ReadError {
    ghost from_gives = { λ _ error. error ≡ no_memory };

    fn from(_: OutOfMemory) -> ReadError {
        ReadError::OutOfMemory
    }
}

impl From<AllocError> for ReadError {
    ghost from_gives = { λ _ error. error ≡ no_memory };

    fn from(_: AllocError) -> ReadError {
        ReadError::OutOfMemory
    }
}

impl<T: Drop> From<AllocFailed<T>> for ReadError {
    ghost from_gives = { λ _ error. error ≡ no_memory };

    fn from(_failed: AllocFailed<T>) -> ReadError {
        ReadError::OutOfMemory
    }
}

impl From<DiskFailed> for ReadError {
    ghost from_gives = { λ _ error. error ≡ store_fault };

    fn from(_: DiskFailed) -> ReadError {
        ReadError::StoreFault
    }
}

impl From<ReadError> for OpenError {
    ghost from_gives = { λ part error. error ≡ unopened part };

    fn from(part: ReadError) -> OpenError {
        match part {
            ReadError::StoreFault => OpenError::StoreFault,
            ReadError::OutOfMemory => OpenError::OutOfMemory,
        }
    }
}

impl From<OutOfMemory> for OpenError {
    ghost from_gives = { λ _ error. error ≡ no_memory_to_open };

    fn from(_: OutOfMemory) -> OpenError {
        OpenError::OutOfMemory
    }
}

impl From<DiskFailed> for OpenError {
    ghost from_gives = { λ _ error. error ≡ store_failed };

    fn from(_: DiskFailed) -> OpenError {
        OpenError::StoreFault
    }
}
