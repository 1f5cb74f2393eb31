//! The lock that keeps other programs from a base: held on its header file, by a handle of its own, and on the folder while the
//! header file is not there.

use crate::whole::MOST_TRIES;
use os::RangeLock;
use std::fs::{File, OpenOptions, TryLockError};
use std::io;
use std::os::fd::AsRawFd;
use std::rt::Files;

/// A handle that holds the lock until it is closed, opened to be written where that is permitted. Where another program, or
/// another handle of this one, holds it, the error is `WouldBlock`. Nothing is waited for.
pub(crate) fn take<R: Files<File = File>>(rt: &R, path: &str) -> io::Result<File> {
    let mut to_write = OpenOptions::new();
    to_write.read(true).write(true);
    let (file, kind) = match to_write.open(rt, path) {
        Ok(file) => (file, RangeLock::Exclusive),
        Err(_) => (File::open(rt, path)?, RangeLock::Shared),
    };
    if lock_whole(&file) && lock_first_byte(&file, kind) {
        return Ok(file);
    }
    Err(io::ErrorKind::WouldBlock.into())
}

/// The same of a folder, which programs that make a base there hold until its header file is made. None, where the folder is not there
/// or may not be read.
pub(crate) fn take_folder<R: Files<File = File>>(rt: &R, path: &str) -> io::Result<Option<File>> {
    let folder = match File::open(rt, path) {
        Ok(folder) => folder,
        Err(error) => {
            return match error.kind() {
                io::ErrorKind::NotFound
                | io::ErrorKind::NotADirectory
                | io::ErrorKind::PermissionDenied => Ok(None),
                _ => Err(error),
            };
        }
    };
    if lock_whole(&folder) {
        return Ok(Some(folder));
    }
    Err(io::ErrorKind::WouldBlock.into())
}

// Takes the lock of this program's kind, and says whether nobody else holds it. A file system without locks has no holder.
fn lock_whole(file: &File) -> bool {
    !matches!(file.try_lock(), Err(TryLockError::WouldBlock))
}

// Takes the lock by which other JAM programs keep a base, in the same way.
fn lock_first_byte(file: &File, kind: RangeLock) -> bool {
    for _ in 0..MOST_TRIES {
        if os::try_lock_range(file.as_raw_fd(), kind, 0, 1) == 0 {
            return true;
        }
        match io::Error::from_raw_os_error(os::errno()).kind() {
            io::ErrorKind::Interrupted => {}
            io::ErrorKind::WouldBlock => return false,
            _ => return true,
        }
    }
    false
}
