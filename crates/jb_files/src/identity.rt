//! Which file a name leads to and which one is open.
ghost use Rattle.std.specs.Prelude.{◌≡◌};

use std::fs::Metadata;
use std::os::unix::fs::MetadataExt;
use std::rt::Files;
use std::{fs, io};

/// One file of the system, whatever its name: its device, and its number there.
#[derive(Clone, Copy, PartialEq, Eq)]
pub(crate) struct Identity {
    device: u64,
    number: u64,
}

impl Identity {
    /// That of the file that was found, which is an error where another one is known.
    pub(crate) fn of(found: &Metadata, known: Option<Identity>) -> io::Result<Identity> {
        let identity = Identity {
            device: found.dev(),
            number: found.ino(),
        };
        match known {
            Some(known) if known != identity => Err(io::ErrorKind::NotFound.into()),
            _ => Ok(identity),
        }
    }
}

/// What has this name, or where that is a symbolic link and is followed, what it leads to. Nothing has it where it is not there, or where
/// what is called its folder is none.
pub(crate) fn found_at<R: Files>(
    rt: &R,
    path: &str,
    is_followed: bool,
) -> io::Result<Option<Metadata>> {
    let found = if is_followed {
        fs::metadata(rt, path)
    } else {
        fs::symlink_metadata(rt, path)
    };
    match found {
        Ok(found) => Ok(Some(found)),
        Err(error) => match error.kind() {
            io::ErrorKind::NotFound | io::ErrorKind::NotADirectory => Ok(None),
            _ => Err(error),
        },
    }
}
