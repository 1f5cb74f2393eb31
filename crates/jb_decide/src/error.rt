//! Why a call of an open area is not done.
ghost use Rattle.std.specs.Prelude.{◌≡◌};
ghost use Rattle.jb_decide.specs.Errors.{area_error};
ghost use Rattle.jb_decide.specs.declared.error.AreaError.TheVariants.{StoreFault as fault, OutOfMemory as no_memory};

use jb_base::OutOfMemory as NoMemory;
use jb_disk::DiskFailed;
use jb_pack::PackError;
use std::alloc::AllocError;
use std::error::Error;
use std::fmt;

/// Why a call of an open area is not done.
#[derive(Clone, Copy, Debug, PartialEq, Eq)]
pub enum AreaError {
    /// The device failed: its count of faults rose in this call. The area is in doubt.
    StoreFault,
    /// There was no memory. Nothing has changed.
    OutOfMemory,
}

impl fmt::Display for AreaError {
    fn fmt<W: fmt::Write>(&self, f: &mut fmt::Formatter<W>) -> fmt::Result {
        match self {
            AreaError::StoreFault => write!(f, "the store failed; the last change is in doubt"),
            AreaError::OutOfMemory => write!(f, "there is no memory for this"),
        }
    }
}

impl Error for AreaError {}

impl From<NoMemory> for AreaError {
    ghost from_gives = { λ none error. error ≡ no_memory };

    fn from(_none: NoMemory) -> AreaError {
        AreaError::OutOfMemory
    }
}

impl From<AllocError> for AreaError {
    ghost from_gives = { λ none error. error ≡ no_memory };

    fn from(_none: AllocError) -> AreaError {
        AreaError::OutOfMemory
    }
}

impl From<DiskFailed> for AreaError {
    ghost from_gives = { λ failed error. error ≡ fault };

    fn from(_failed: DiskFailed) -> AreaError {
        AreaError::StoreFault
    }
}

impl From<PackError> for AreaError {
    ghost from_gives = { λ cause error. error ≡ area_error cause };

    fn from(cause: PackError) -> AreaError {
        match cause {
            PackError::StoreFault => AreaError::StoreFault,
            PackError::OutOfMemory => AreaError::OutOfMemory,
        }
    }
}
