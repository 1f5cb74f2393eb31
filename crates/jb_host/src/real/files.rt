//! Trusted: bases and settings files of the file system.
//!
//! It opens a settings file and reads it to its end, and opens a base (`jb_files`), with pauses while another program has it. A
//! contract knows nothing of what it gives.

use jb_bytes::Bytes;
use jb_files::{FolderDisk, OpenFault};
use std::alloc::Global;
use std::fs::File;
use std::io::{ErrorKind, Read};
use std::rt::Files;
use std::time::Duration;
use std::{io, thread, time};

/// Bytes of a settings file; a longer one is refused as a fault of the host.
pub const MOST_SETTINGS_BYTES: usize = 1_048_576;
/// Bytes that are read of it at once.
const PIECE_BYTES: usize = 16_384;
/// How often a base that another program has is asked for again, and the pause before: five seconds together.
const BUSY_TRIES: u32 = 50;

const BUSY_MILLISECONDS: u64 = 100;

/// Puts what comes next of a file behind what was read of it, and says how much that was; 0 only at its end.
fn read_more(file: &mut File, bytes: &mut Bytes) -> io::Result<usize> {
    let mut piece = [0u8; PIECE_BYTES];
    let n = file.read(&mut piece)?;
    match bytes.append(&piece[..n]) {
        Ok(()) => Ok(n),
        Err(_) => Err(ErrorKind::OutOfMemory.into()),
    }
}

/// The bytes of a file, where it is not longer than a settings file may be.
pub(crate) fn read_whole<R: Files<File = File>>(
    rt: &R,
    alloc: Global,
    path: &str,
) -> io::Result<Bytes> {
    let mut bytes = Bytes::new(alloc);
    let mut file = File::open(rt, path)?;
    for _ in 0..=MOST_SETTINGS_BYTES {
        let n = read_more(&mut file, &mut bytes)?;
        if bytes.len() > MOST_SETTINGS_BYTES {
            break;
        }
        if n == 0 {
            return Ok(bytes);
        }
    }
    Err(ErrorKind::FileTooLarge.into())
}

/// The disk of a base, beside others of this program or not. One that another program has is waited for a while, so that tools that are
/// started together each get it.
pub(crate) fn opened<R: Files<File = File> + time::Clock + Copy + Drop>(
    rt: R,
    alloc: Global,
    dir: &str,
    name: &str,
    is_beside: bool,
) -> Result<FolderDisk<R>, OpenFault> {
    for _ in 0..BUSY_TRIES {
        match FolderDisk::new(rt, alloc, dir, name, is_beside) {
            Err(OpenFault::Busy) => thread::sleep(&rt, Duration::from_millis(BUSY_MILLISECONDS)),
            answer => return answer,
        }
    }
    FolderDisk::new(rt, alloc, dir, name, is_beside)
}
