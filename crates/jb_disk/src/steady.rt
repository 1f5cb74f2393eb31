//! Six files in memory that tell what they hold, and nothing of crashes.
ghost use Rattle.std.specs.Prelude.{◌≡◌, IfOk};
ghost use Rattle.std.specs.Option.{ForSome};

use crate::memory::{fault, passes};
use crate::six::Six;
use crate::{Disk, DiskFailed, FileId};
use jb_bytes::OutOfMemory;
use std::alloc::Global;

/// Six files in memory, for a board that is built and thrown away. Want of memory is its one fault.
#[derive(Drop)]
pub struct SteadyDisk {
    present: Six,
    faults: u64,
}

impl SteadyDisk {
    ghost use Rattle.jb_disk.specs.Steady.{steady_device, empty_device};

    /// Six empty files, each with room for so many bytes; they take more as it is needed.
    pub fn new(alloc: Global, room: u64) -> Result<SteadyDisk, OutOfMemory>
        ensures { IfOk result (λ disk. steady_device disk ≡ empty_device) }
    {
        let present = Six::with_room(alloc, room as usize)?;
        Ok(SteadyDisk { present, faults: 0 })
    }

    /// What a file holds now. This is no call of the disk.
    pub fn file(&self, file: FileId) -> &[u8]
        ensures { ForSome (steady_device self.now).contents (λ files. result.now ≡ files file) }
    {
        self.present.file(file)
    }
}

impl Disk for SteadyDisk {
    ghost use Rattle.jb_disk.specs.Steady.{steady_device, tells_no_image};

    ghost device = { steady_device };

    fn len(&mut self, file: FileId) -> Result<u64, DiskFailed> {
        Ok(self.present.file(file).len() as u64)
    }

    fn read_at(&mut self, file: FileId, at: u64, into: &mut [u8]) -> Result<(), DiskFailed> {
        let bytes = self.present.file(file);
        if passes(bytes.len(), at, into.len()) {
            return Err(DiskFailed);
        }
        let from = at as usize;
        into.copy_from_slice(&bytes[from..from + into.len()]);
        Ok(())
    }

    fn write_at(&mut self, file: FileId, at: u64, bytes: &[u8]) -> Result<(), DiskFailed> {
        if passes(self.present.file(file).len(), at, bytes.len()) {
            return Err(DiskFailed);
        }
        self.present.overwrite(file, at as usize, bytes);
        Ok(())
    }

    fn set_len(&mut self, file: FileId, len: u64) -> Result<(), DiskFailed> {
        match self.present.resize(file, len as usize) {
            Ok(()) => Ok(()),
            Err(OutOfMemory) => Err(fault(&mut self.faults)),
        }
    }

    fn sync(&mut self, _: FileId) -> Result<(), DiskFailed> {
        Ok(())
    }

    ghost told = { tells_no_image };
}
