//! Why the areas of a board are not opened.
ghost use Rattle.std.specs.Prelude.{◌≡◌};
ghost use Rattle.jb_run.specs.AreasErrors.{refused_by_host, refused_at};
ghost use Rattle.jb_run.specs.declared.areas_error.AreasError.TheVariants.{OutOfMemory as no_memory};

use jb_area_open::OpeningError;
use jb_base::OutOfMemory;
use jb_host::HostError;
use jb_image::OpenError;

/// Why the areas of a board are not opened: the first refusal that comes, in the order of the areas.
#[derive(Clone, Copy, Debug, PartialEq, Eq)]
pub(crate) enum AreasError {
    /// The area at this place, counted from 1, is refused for what its files hold, or its disk failed.
    Area { place: u32, error: OpeningError },
    /// The host has no disk for an area.
    HostFault,
    /// The allocator gave no memory.
    OutOfMemory,
}

impl From<OutOfMemory> for AreasError {
    ghost from_gives = { λ _ error. error ≡ no_memory };

    fn from(_: OutOfMemory) -> AreasError {
        AreasError::OutOfMemory
    }
}

impl From<HostError> for AreasError {
    ghost from_gives = { λ error refusal. refusal ≡ refused_by_host error };

    fn from(error: HostError) -> AreasError {
        match error {
            HostError::Failed => AreasError::HostFault,
            HostError::OutOfMemory => AreasError::OutOfMemory,
        }
    }
}

/// The refusal of the area at this place.
pub(crate) fn refused(place: u32, error: OpeningError) -> AreasError
    ensures { result ≡ refused_at place error }
{
    match error {
        OpeningError::Base(OpenError::OutOfMemory) => AreasError::OutOfMemory,
        error => AreasError::Area { place, error },
    }
}
