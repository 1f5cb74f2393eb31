//! The disk over real files.
ghost use Rattle.std.specs.Prelude.{◌≡◌, IfOk};

use crate::OpenFault;
use crate::folder::Folder;
use jb_disk::{Disk, DiskFailed, FileId, counted};
use std::alloc::Global;
use std::fs::File;
use std::rt::Files;

/// The files `NAME.JHR`, `NAME.JDT`, `NAME.JDX`, `NAME.JLR`, `NAME.JNL` and `NAME.NDT` of one folder, or all in lower case.
/// Each is opened once to be read, where a call first asks for it, and once more to be written.
#[derive(Drop)]
pub struct FolderDisk<R: Files<File = File> + Drop> {
    folder: Folder<R>,
    faults: u64,
}

impl<R: Files<File = File> + Drop> FolderDisk<R> {
    /// The base of this name in a folder, which is the current one where its text is empty. Neither has to be there. The
    /// extensions are spelled as those of the header file that is there, upper case before lower case.
    ///
    /// A base that is not there keeps others from making one in its folder. `is_beside` says that this program has other disks, so that
    /// one of them may be what keeps the folder: then that is no hindrance, and who makes the header file first has the base.
    pub fn new(
        rt: R,
        alloc: Global,
        dir: &str,
        name: &str,
        is_beside: bool,
    ) -> Result<FolderDisk<R>, OpenFault>
        ensures { IfOk result (λ disk. disk.faults ≡ 0) }
    {
        let folder = Folder::new(rt, alloc, dir, name, is_beside)?;
        Ok(FolderDisk { folder, faults: 0 })
    }

    /// How often it has failed.
    pub fn faults(&self) -> u64
        ensures { result ≡ self.now.faults }
    {
        self.faults
    }
}

impl<R: Files<File = File> + Drop> Disk for FolderDisk<R> {
    ghost use Rattle.jb_disk.specs.Silent.{silent_device, tells_nothing};

    ghost device = { λ disk. silent_device disk.faults };

    fn len(&mut self, file: FileId) -> Result<u64, DiskFailed> {
        counted(&mut self.faults, self.folder.len(file))
    }

    fn read_at(&mut self, file: FileId, at: u64, into: &mut [u8]) -> Result<(), DiskFailed> {
        counted(&mut self.faults, self.folder.read_at(file, at, into))
    }

    fn write_at(&mut self, file: FileId, at: u64, bytes: &[u8]) -> Result<(), DiskFailed> {
        counted(&mut self.faults, self.folder.write_at(file, at, bytes))
    }

    fn set_len(&mut self, file: FileId, len: u64) -> Result<(), DiskFailed> {
        counted(&mut self.faults, self.folder.set_len(file, len))
    }

    fn sync(&mut self, file: FileId) -> Result<(), DiskFailed> {
        counted(&mut self.faults, self.folder.sync(file))
    }

    fn claim(&mut self) -> Result<(), DiskFailed> {
        counted(&mut self.faults, self.folder.claim())
    }

    ghost told = { λ disk. tells_nothing disk.faults };
}
