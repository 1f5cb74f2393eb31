//! The six files of a base in their folder, with the system's own errors.
ghost use Rattle.std.specs.Prelude.{◌≡◌, ◌≢◌, IsErr, IsTrue};
ghost use Rattle.jb_disk.specs.Files.{file_number};
ghost use Rattle.jb_files.specs.Failures.{failures, HasFailedSync, KeepsPaths, OthersStay};

use crate::names::Names;
use crate::real::RealFile;
use crate::{OpenFault, lock, spelling};
use jb_disk::FileId;
use std::alloc::Global;
use std::fs::File;
use std::io;
use std::rt::Files;

/// The files, by their numbers.
#[derive(Drop)]
pub(crate) struct Folder<R: Files<File = File> + Drop> {
    rt: R,
    names: Names,
    files: [RealFile; 6],
    // The files are spelled so; else each call fails.
    is_spelled: bool,
    // The handles that keep other programs out: of the base, and of making it.
    lock: Option<File>,
    folder_lock: Option<File>,
    // Some call was answered while the header file was not there.
    was_absent: bool,
    // Other disks of this program may be of the folder, and one of them may hold it.
    is_beside: bool,
}

impl<R: Files<File = File> + Drop> Folder<R> {
    /// The files of a base, which is kept from other programs where its header file is there.
    pub(crate) fn new(
        rt: R,
        alloc: Global,
        dir: &str,
        name: &str,
        is_beside: bool,
    ) -> Result<Folder<R>, OpenFault> {
        let (names, base) = Names::of_base(alloc, if dir.is_empty() { "." } else { dir }, name)?;
        let (files, is_spelled) = spelling::files(&rt, alloc, &names, base)?;
        if files[4].is_linked(&rt) || files[5].is_linked(&rt) {
            return Err(OpenFault::Linked);
        }
        let mut folder = Folder {
            rt,
            names,
            files,
            is_spelled,
            lock: None,
            folder_lock: None,
            was_absent: false,
            is_beside,
        };
        match folder.hold() {
            Err(error) if error.kind() == io::ErrorKind::WouldBlock => Err(OpenFault::Busy),
            // What could not be opened is tried again by each call.
            _ => Ok(folder),
        }
    }

    pub(crate) fn len(&mut self, file: FileId) -> io::Result<u64>
        ensures paths { KeepsPaths self.old.files self.new.files }
        ensures kept { failures self.new.files ≡ failures self.old.files }
    {
        self.hold()?;
        let n = file.number() as usize;
        self.files[n].len(&self.rt)
    }

    pub(crate) fn read_at(&mut self, file: FileId, at: u64, into: &mut [u8]) -> io::Result<()>
        ensures paths { KeepsPaths self.old.files self.new.files }
        ensures kept { failures self.new.files ≡ failures self.old.files }
    {
        self.hold()?;
        let n = file.number() as usize;
        self.files[n].read_at(&self.rt, at, into)
    }

    pub(crate) fn write_at(&mut self, file: FileId, at: u64, bytes: &[u8]) -> io::Result<()>
        ensures paths { KeepsPaths self.old.files self.new.files }
        ensures kept { failures self.new.files ≡ failures self.old.files }
    {
        self.hold()?;
        let n = file.number() as usize;
        self.files[n].write_at(&self.rt, at, bytes)
    }

    /// Makes the file where it is not there; then its name is in the folder for good before this answers.
    pub(crate) fn set_len(&mut self, file: FileId, len: u64) -> io::Result<()>
        ensures paths { KeepsPaths self.old.files self.new.files }
        ensures others { OthersStay (file_number file) self.old.files self.new.files }
        ensures stays { len ≢ 0 → HasFailedSync self.old.files (file_number file)
            → HasFailedSync self.new.files (file_number file) }
        ensures names { IsTrue self.old.names.has_failed_sync → IsErr result
            × IsTrue self.new.names.has_failed_sync }
    {
        self.hold()?;
        if file == FileId::Ndt && len == 0 && !self.has_copies()? {
            return self.names.sync(&self.rt);
        }
        self.make(file)?;
        self.hold()?;
        self.resize(file, len)?;
        self.names.sync(&self.rt)
    }

    // Whether there is a file of copies, which else need not be emptied.
    fn has_copies(&self) -> io::Result<bool> {
        self.files[5].is_there(&self.rt)
    }

    // Makes the file where it is not there.
    fn make(&mut self, file: FileId) -> io::Result<()>
        ensures paths { KeepsPaths self.old.files self.new.files }
        ensures kept { failures self.new.files ≡ failures self.old.files }
        ensures names { self.new.names.has_failed_sync ≡ self.old.names.has_failed_sync }
    {
        let n = file.number() as usize;
        let is_new = self.files[n].make(&self.rt);
        if !matches!(&is_new, Ok(false)) {
            self.names.change();
        }
        let _ = is_new?;
        Ok(())
    }

    // Sets the length of a file that is there.
    fn resize(&mut self, file: FileId, len: u64) -> io::Result<()>
        ensures paths { KeepsPaths self.old.files self.new.files }
        ensures others { OthersStay (file_number file) self.old.files self.new.files }
        ensures stays { len ≢ 0 → HasFailedSync self.old.files (file_number file)
            → HasFailedSync self.new.files (file_number file) }
        ensures names { self.new.names ≡ self.old.names }
    {
        let n = file.number() as usize;
        self.files[n].set_len(&self.rt, len)
    }

    /// A file that is not there is as it is for good.
    pub(crate) fn sync(&mut self, file: FileId) -> io::Result<()>
        ensures paths { KeepsPaths self.old.files self.new.files }
        ensures others { OthersStay (file_number file) self.old.files self.new.files }
        ensures stays { HasFailedSync self.old.files (file_number file) → IsErr result
            × HasFailedSync self.new.files (file_number file) }
        ensures names { IsTrue self.old.names.has_failed_sync → IsTrue self.new.names.has_failed_sync }
    {
        self.hold()?;
        if file == FileId::Jnl {
            self.are_in_place()?;
        }
        let n = file.number() as usize;
        if self.files[n].sync(&self.rt)? {
            self.names.sync(&self.rt)?;
        }
        Ok(())
    }

    // Whether each file that is open still has its name. It is asked before a record is durable, which would else be done in files that
    // were put in their place.
    fn are_in_place(&self) -> io::Result<()> {
        for file in &self.files {
            let _ = file.is_there(&self.rt)?;
        }
        Ok(())
    }

    /// Opens each file that is there to be written.
    pub(crate) fn claim(&mut self) -> io::Result<()>
        ensures paths { KeepsPaths self.old.files self.new.files }
        ensures kept { failures self.new.files ≡ failures self.old.files }
    {
        self.hold()?;
        self.open_to_write(FileId::Jhr)?;
        self.open_to_write(FileId::Jdt)?;
        self.open_to_write(FileId::Jdx)?;
        self.open_to_write(FileId::Jlr)?;
        self.open_to_write(FileId::Jnl)?;
        self.open_to_write(FileId::Ndt)
    }

    // Opens a file that is there to be written.
    fn open_to_write(&mut self, file: FileId) -> io::Result<()>
        ensures paths { KeepsPaths self.old.files self.new.files }
        ensures kept { failures self.new.files ≡ failures self.old.files }
    {
        let n = file.number() as usize;
        self.files[n].open_to_write(&self.rt)
    }

    // The lock of the folder, which is passed over where another disk of this program may hold it.
    fn take_folder(&self) -> io::Result<Option<File>> {
        match lock::take_folder(&self.rt, self.names.path()) {
            Err(error) if self.is_beside && error.kind() == io::ErrorKind::WouldBlock => Ok(None),
            taken => taken,
        }
    }

    // Keeps other programs out: of the base, and until its header file is there from making it. What was answered before is of a base
    // that is not there, so one that another program has made since is none of this disk's.
    fn hold(&mut self) -> io::Result<()>
        ensures paths { KeepsPaths self.old.files self.new.files }
        ensures kept { failures self.new.files ≡ failures self.old.files }
        ensures names { self.new.names ≡ self.old.names }
    {
        if self.lock.is_some() {
            return Ok(());
        }
        if !self.is_spelled {
            return Err(io::ErrorKind::Other.into());
        }
        // Who makes the base holds the folder until it holds the header file, which is empty until then.
        let is_empty = self.files[0].len(&self.rt)? == 0;
        if is_empty && self.folder_lock.is_none() {
            self.folder_lock = self.take_folder()?;
        }
        let lock = self.files[0].lock(&self.rt)?;
        if lock.is_none() {
            self.was_absent = true;
            return Ok(());
        }
        if self.was_absent && self.files[0].len(&self.rt)? > 0 {
            return Err(io::ErrorKind::WouldBlock.into());
        }
        self.lock = lock;
        self.folder_lock = None;
        Ok(())
    }
}
