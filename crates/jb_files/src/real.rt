//! One file of the system: opened to be read, and anew to be written where that is first asked.
ghost use Rattle.std.specs.Prelude.{◌≡◌, ◌≢◌, ◌↔◌, ◌+◌, ◌≤◌, false, IsTrue, IsErr, IsOk, OnOk, OnErr};

use crate::identity::{Identity, found_at};
use crate::lock;
use crate::whole::{OpenFile, write_whole};
use std::fs::{File, Metadata, OpenOptions};
use std::io;
use std::os::fd::AsRawFd;
use std::os::unix::fs::{FileExt, MetadataExt, OpenOptionsExt};
use std::rt::Files;

/// The permissions of a file that is made, less the umask: the owner and the group read and write it, others never, since an area
/// holds private messages.
const MADE_MODE: u32 = 0o660;

/// A file of the system, which may not be there.
pub(crate) struct RealFile {
    path: String,
    // It is to be no link, and to have one name when it is opened: what callers write is written over whatever it held.
    is_sole: bool,
    open: Open,
    // Which file was opened. No other one is from then on.
    identity: Option<Identity>,
    // The length that the last change gave it, or that was found by a write.
    known_len: Option<u64>,
    has_failed_sync: bool,
}

// Whoever lets go of one does so in one call.
impl Drop for RealFile {
    fn drop(self) {
        let RealFile {
            path: _path,
            is_sole: _is_sole,
            open: _open,
            identity: _identity,
            known_len: _known_len,
            has_failed_sync: _has_failed_sync,
        } = self;
    }
}

// How far it is open.
enum Open {
    Closed,
    ToRead(File),
    ToWrite(File),
}

// Whoever lets go of one does so in one call.
impl Drop for Open {
    fn drop(self) {
        match self {
            Open::Closed => {}
            Open::ToRead(_held) => {}
            Open::ToWrite(_held) => {}
        }
    }
}

impl RealFile {
    pub(crate) fn new(path: String, is_sole: bool) -> RealFile {
        RealFile {
            path,
            is_sole,
            open: Open::Closed,
            identity: None,
            known_len: None,
            has_failed_sync: false,
        }
    }

    /// Which file has its name, if any has, whether it can be read or not.
    pub(crate) fn standing<R: Files>(&self, rt: &R) -> io::Result<Option<Identity>> {
        match found_at(rt, self.path.as_str(), true)? {
            Some(found) => Ok(Some(Identity::of(&found, None)?)),
            None => Ok(None),
        }
    }

    /// Whether it is to have one name, and is a symbolic link or has more.
    pub(crate) fn is_linked<R: Files>(&self, rt: &R) -> bool {
        match found_at(rt, self.path.as_str(), false) {
            Ok(Some(found)) => self.is_sole && (found.is_symlink() || has_names(&found)),
            _ => false,
        }
    }

    /// A handle of its own that keeps other programs out until it is closed, where the file is there.
    pub(crate) fn lock<R: Files<File = File>>(&mut self, rt: &R) -> io::Result<Option<File>>
        ensures named { self.new.path ≡ self.old.path }
        ensures kept { self.new.has_failed_sync ≡ self.old.has_failed_sync }
    {
        if !self.is_there(rt)? {
            return Ok(None);
        }
        let file = lock::take(rt, self.path.as_str())?;
        Ok(Some(self.admitted(file)?))
    }

    /// Its length, or 0 where it is not there.
    pub(crate) fn len<R: Files<File = File>>(&mut self, rt: &R) -> io::Result<u64>
        ensures named { self.new.path ≡ self.old.path }
        ensures kept { self.new.has_failed_sync ≡ self.old.has_failed_sync }
    {
        self.open_to_read(rt)?;
        match self.file() {
            Some(file) => Ok(file.metadata()?.len()),
            None => Ok(0),
        }
    }

    /// Fills the slice from a place on. A range that passes the end is an error.
    pub(crate) fn read_at<R: Files<File = File>>(
        &mut self,
        rt: &R,
        at: u64,
        into: &mut [u8],
    ) -> io::Result<()>
        ensures named { self.new.path ≡ self.old.path }
        ensures kept { self.new.has_failed_sync ≡ self.old.has_failed_sync }
    {
        if into.is_empty() {
            return within(self.len(rt)?, at, 0);
        }
        self.open_to_read(rt)?;
        match self.file() {
            Some(file) => file.read_exact_at(into, at),
            None => Err(io::ErrorKind::UnexpectedEof.into()),
        }
    }

    /// Writes over what is there. A range that passes the end is an error, and nothing is written. The system is asked for the
    /// end where no earlier call of this disk has found or set it.
    pub(crate) fn write_at<R: Files<File = File>>(
        &mut self,
        rt: &R,
        at: u64,
        bytes: &[u8],
    ) -> io::Result<()>
        ensures named { self.new.path ≡ self.old.path }
        ensures kept { self.new.has_failed_sync ≡ self.old.has_failed_sync }
    {
        self.open_to_write(rt)?;
        let known = self.known_len;
        let Some(file) = self.file() else {
            return within(0, at, bytes.len());
        };
        let len = match known {
            Some(len) => len,
            None => file.metadata()?.len(),
        };
        within(len, at, bytes.len())?;
        write_whole(&mut OpenFile { file }, at, bytes)?;
        self.known_len = Some(len);
        Ok(())
    }

    /// Makes an empty file where none is there, and says whether it did.
    pub(crate) fn make<R: Files<File = File>>(&mut self, rt: &R) -> io::Result<bool>
        ensures named { self.new.path ≡ self.old.path }
        ensures kept { self.new.has_failed_sync ≡ self.old.has_failed_sync }
    {
        self.open_to_read(rt)?;
        if self.file().is_some() {
            return Ok(false);
        }
        let file = OpenOptions::new()
            .read(true)
            .write(true)
            .create_new(true)
            .mode(MADE_MODE)
            .open(rt, self.path.as_str())?;
        self.open = Open::ToWrite(self.admitted(file)?);
        Ok(true)
    }

    /// Sets the length of a file that is there. Of one that was emptied nothing is left that a failed sync can have lost.
    pub(crate) fn set_len<R: Files<File = File>>(&mut self, rt: &R, len: u64) -> io::Result<()>
        ensures named { self.new.path ≡ self.old.path }
        ensures kept { len ≢ 0 → self.new.has_failed_sync ≡ self.old.has_failed_sync }
        ensures emptied { OnOk result (len ≡ 0 → self.new.has_failed_sync ≡ false) }
        ensures failed { OnErr result (self.new.has_failed_sync ≡ self.old.has_failed_sync) }
    {
        self.known_len = None;
        self.open_to_write(rt)?;
        let Some(file) = self.file() else {
            return Err(io::ErrorKind::NotFound.into());
        };
        file.set_len(len)?;
        self.known_len = Some(len);
        self.has_failed_sync = self.has_failed_sync && len > 0;
        Ok(())
    }

    /// Sends what it holds to the device, and says whether it is there, which is an error where its name has come to lead to
    /// another file or to none. The system may have dropped what a failed sync did not write, and would call the next one done;
    /// so each later one fails too.
    pub(crate) fn sync<R: Files<File = File>>(&mut self, rt: &R) -> io::Result<bool>
        ensures named { self.new.path ≡ self.old.path }
        ensures stays { IsTrue self.old.has_failed_sync → IsErr result × IsTrue self.new.has_failed_sync }
        ensures failed { IsTrue self.new.has_failed_sync → IsErr result }
    {
        if self.has_failed_sync {
            return Err(io::ErrorKind::Other.into());
        }
        self.open_to_read(rt)?;
        let Some(file) = self.file() else {
            return Ok(false);
        };
        let answer = file.sync_all();
        noted(&mut self.has_failed_sync, answer)?;
        self.is_there(rt)
    }

    // Opens the file to be read, where it is there and is not open.
    fn open_to_read<R: Files<File = File>>(&mut self, rt: &R) -> io::Result<()>
        ensures named { self.new.path ≡ self.old.path }
        ensures kept { self.new.has_failed_sync ≡ self.old.has_failed_sync }
    {
        if matches!(self.open, Open::Closed) && self.is_there(rt)? {
            let file = File::open(rt, self.path.as_str())?;
            let file = self.admitted(file)?;
            // It may have come to lead to another file meanwhile.
            let _ = self.is_there(rt)?;
            self.open = Open::ToRead(file);
        }
        Ok(())
    }

    /// Opens the file to be written too, where it is there and is not open so.
    pub(crate) fn open_to_write<R: Files<File = File>>(&mut self, rt: &R) -> io::Result<()>
        ensures named { self.new.path ≡ self.old.path }
        ensures kept { self.new.has_failed_sync ≡ self.old.has_failed_sync }
    {
        let is_open = matches!(self.open, Open::ToWrite(_));
        if !is_open && self.is_there(rt)? {
            let file = OpenOptions::new()
                .read(true)
                .write(true)
                .open(rt, self.path.as_str())?;
            let file = self.admitted(file)?;
            let _ = self.is_there(rt)?;
            self.open = Open::ToWrite(file);
        }
        Ok(())
    }

    // Whether a regular file has its name: the one that was opened, where one was. Anything else there is an error, since opening
    // it might wait or read nothing.
    pub(crate) fn is_there<R: Files>(&self, rt: &R) -> io::Result<bool> {
        let Some(found) = found_at(rt, self.path.as_str(), !self.is_sole)? else {
            return match self.identity {
                Some(_) => Err(io::ErrorKind::NotFound.into()),
                None => Ok(false),
            };
        };
        let is_first = self.identity.is_none();
        if !found.is_file() || self.is_sole && is_first && has_names(&found) {
            return Err(io::ErrorKind::Unsupported.into());
        }
        let _ = Identity::of(&found, self.identity)?;
        Ok(true)
    }

    // A handle that was opened, where it is of the file that was opened before.
    fn admitted(&mut self, file: File) -> io::Result<File>
        ensures named { self.new.path ≡ self.old.path }
        ensures kept { self.new.has_failed_sync ≡ self.old.has_failed_sync }
    {
        let file = apart(file)?;
        self.identity = Some(Identity::of(&file.metadata()?, self.identity)?);
        Ok(file)
    }

    // The file, where it is open.
    fn file(&self) -> Option<&File> {
        match &self.open {
            Open::Closed => None,
            Open::ToRead(file) | Open::ToWrite(file) => Some(file),
        }
    }
}

// Whether a file has more names than one. A folder has a name in each folder below it.
fn has_names(found: &Metadata) -> bool {
    found.is_file() && found.nlink() > 1
}

/// Notes whether a sync of the system failed, and hands its answer on.
pub(crate) fn noted(has_failed: &mut bool, answer: io::Result<()>) -> io::Result<()>
    ensures noted { IsTrue has_failed.new ↔ IsErr answer }
    ensures same { result ≡ answer }
{
    *has_failed = answer.is_err();
    answer
}

// What is meant for a standard stream that was closed must not land in a file of the base.
fn apart(file: File) -> io::Result<File> {
    if file.as_raw_fd() <= 2 {
        return file.try_clone();
    }
    Ok(file)
}

// Whether a range ends within a file of this length.
fn within(len: u64, at: u64, count: usize) -> io::Result<()>
    ensures { IsOk result ↔ (at + count ≤ len) }
{
    match at.checked_add(count as u64) {
        Some(end) if end <= len => Ok(()),
        _ => Err(io::ErrorKind::UnexpectedEof.into()),
    }
}
