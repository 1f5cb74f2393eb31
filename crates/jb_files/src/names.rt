//! The folder of a base: the names in it.
ghost use Rattle.std.specs.Prelude.{◌≡◌, IsErr, IsTrue};

use crate::real::noted;
use jb_bytes::OutOfMemory;
use std::alloc::Global;
use std::fs::File;
use std::io;
use std::io::Read;
use std::rt::Files;

/// Bytes of names that are read at once, more than the longest name has.
const PIECE_BYTES: usize = 4_096;

/// A folder, by its path with a slash behind it.
pub(crate) struct Names {
    path: String,
    is_synced: bool,
    has_failed_sync: bool,
}

// Whoever lets go of one does so in one call.
impl Drop for Names {
    fn drop(self) {
        let Names {
            path: _path,
            is_synced: _is_synced,
            has_failed_sync: _has_failed_sync,
        } = self;
    }
}

impl Names {
    /// The folder of the base with this name in this folder, which does not have to be there, and the base's name in it: a name may lead
    /// to a folder below.
    pub(crate) fn of_base<'a>(
        alloc: Global,
        dir: &str,
        name: &'a str,
    ) -> Result<(Names, &'a str), OutOfMemory> {
        let (path, base) = match name.rsplit_once('/') {
            Some((below, base)) => (format!(in alloc; "{dir}/{below}/")?, base),
            None => (format!(in alloc; "{dir}/")?, name),
        };
        let names = Names {
            path,
            is_synced: false,
            has_failed_sync: false,
        };
        Ok((names, base))
    }

    /// Its path, with a slash behind it.
    pub(crate) fn path(&self) -> &str {
        self.path.as_str()
    }

    /// A file was made, or may have been.
    pub(crate) fn change(&mut self)
        ensures kept { self.new.has_failed_sync ≡ self.old.has_failed_sync }
    {
        self.is_synced = false;
    }

    /// Makes the names durable: once, since an earlier process may have made a file and stopped, and again after each change. The
    /// system may have dropped what a failed sync did not write, and would call the next one done; so each later one fails too.
    pub(crate) fn sync<R: Files<File = File>>(&mut self, rt: &R) -> io::Result<()>
        ensures stays { IsTrue self.old.has_failed_sync → IsErr result × IsTrue self.new.has_failed_sync }
        ensures failed { IsTrue self.new.has_failed_sync → IsErr result }
    {
        if self.has_failed_sync {
            return Err(io::ErrorKind::Other.into());
        }
        if !self.is_synced {
            let answer = File::open(rt, self.path.as_str())?.sync_all();
            noted(&mut self.has_failed_sync, answer)?;
            self.is_synced = true;
        }
        Ok(())
    }

    /// Whether some header file is spelled in lower case here and none in capitals. That is so of no folder that cannot be read.
    pub(crate) fn is_lower_case<R: Files>(&self, rt: &R) -> bool {
        let Ok(mut names) = rt.open_dir(self.path.as_str()) else {
            return false;
        };
        let mut piece = [0u8; PIECE_BYTES];
        let mut has_lower = false;
        for _ in 0..u64::MAX {
            match names.read(&mut piece) {
                Ok(0) => return has_lower,
                Ok(n) if !has_ending(&piece[..n], b".JHR\0") => {
                    has_lower = has_lower || has_ending(&piece[..n], b".jhr\0");
                }
                _ => return false,
            }
        }
        false
    }
}

// Whether one of these names ends so. Each has a NUL behind it.
fn has_ending(names: &[u8], ending: &[u8; 5]) -> bool {
    names.windows(5).any(|window| window == ending.as_slice())
}
