//! Why a run has not begun.
ghost use Rattle.std.specs.Prelude.{◌≡◌};
ghost use Rattle.jb_run.specs.LocalEnding.{of_areas, of_host, of_settings};

use crate::areas_error::AreasError;
use jb_area_open::OpeningError;
use jb_conf::ConfError;
use jb_host::HostError;

/// Why a run has not begun: the first refusal that comes.
#[derive(Clone, Copy, Debug, PartialEq, Eq)]
pub enum RunError {
    /// The settings are refused.
    Settings(ConfError),
    /// The area at this place of the settings, counted from 1, is refused for what its files hold, or its disk failed.
    Area { place: u32, error: OpeningError },
    /// The host has no such settings file, or no disk for an area or for its backup.
    HostFault,
    /// The allocator gave no memory.
    OutOfMemory,
}

impl From<HostError> for RunError {
    ghost from_gives = { λ error refusal. refusal ≡ of_host error };

    fn from(error: HostError) -> RunError {
        match error {
            HostError::Failed => RunError::HostFault,
            HostError::OutOfMemory => RunError::OutOfMemory,
        }
    }
}

impl From<AreasError> for RunError {
    ghost from_gives = { λ error refusal. refusal ≡ of_areas error };

    fn from(error: AreasError) -> RunError {
        match error {
            AreasError::Area { place, error } => RunError::Area { place, error },
            AreasError::HostFault => RunError::HostFault,
            AreasError::OutOfMemory => RunError::OutOfMemory,
        }
    }
}

impl From<ConfError> for RunError {
    ghost from_gives = { λ error refusal. refusal ≡ of_settings error };

    fn from(error: ConfError) -> RunError {
        match error {
            ConfError::OutOfMemory => RunError::OutOfMemory,
            error => RunError::Settings(error),
        }
    }
}
