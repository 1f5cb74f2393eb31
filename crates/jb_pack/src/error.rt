//! Why an area is not packed.
ghost use Rattle.std.specs.Prelude.{◌≡◌};
ghost use Rattle.jb_pack.specs.declared.error.PackError.TheVariants.{OutOfMemory as no_memory, StoreFault as store_fault};

use jb_base::OutOfMemory;
use jb_disk::DiskFailed;
use std::alloc::{AllocError, AllocFailed};
use thiserror::Error;

/// Why [`plan`](crate::plan) makes no change, or a [`Packer`](crate::Packer) copies nothing. After either of a plan only the
/// redo is another than before, and it is no change then; what is left of a packer its calls say.
#[derive(Clone, Copy, Debug, PartialEq, Eq, Error)]
pub enum PackError {
    /// The device failed in this call; its count of faults rose.
    #[error("the disk failed")]
    StoreFault,
    /// The allocator gave no memory.
    #[error("out of memory")]
    OutOfMemory,
}

impl From<OutOfMemory> for PackError {
    ghost from_gives = { λ _ error. error ≡ no_memory };

    fn from(_: OutOfMemory) -> PackError {
        PackError::OutOfMemory
    }
}

impl From<AllocError> for PackError {
    ghost from_gives = { λ _ error. error ≡ no_memory };

    fn from(_: AllocError) -> PackError {
        PackError::OutOfMemory
    }
}

impl<T: Drop> From<AllocFailed<T>> for PackError {
    ghost from_gives = { λ _ error. error ≡ no_memory };

    fn from(_failed: AllocFailed<T>) -> PackError {
        PackError::OutOfMemory
    }
}

impl From<DiskFailed> for PackError {
    ghost from_gives = { λ _ error. error ≡ store_fault };

    fn from(_: DiskFailed) -> PackError {
        PackError::StoreFault
    }
}
