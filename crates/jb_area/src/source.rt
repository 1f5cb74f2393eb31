//! An open area as what is backed up: its files are read, and nothing of it changes.
ghost use Rattle.std.specs.Prelude.{◌≡◌, ◌+◌, length, take, drop, IfOk, OnOk};
ghost use Rattle.std.specs.Option.{ForSome};
ghost use Rattle.jb_disk.specs.Device.{FailsBy, IsPast, OnlyReads};
ghost use Rattle.jb_area.specs.Area.{device_of};
ghost use Rattle.jb_area.specs.Backups.{IsSameButDisk, same_but_disk, same_on};

use crate::OpenArea;
use jb_backup::Source;
use jb_disk::{Disk, DiskFailed, FileId};

impl<D: Disk> OpenArea<D> {
    /// The length of a file of the area in bytes, as its disk says. It may be asked whatever the area does, at rest, with a
    /// call begun or in doubt. Nothing of it changes; a read that fails leaves it in doubt only where it was so before.
    pub fn file_len(&mut self, file: FileId) -> Result<u64, DiskFailed>
        ensures found { IfOk result (λ len.
            ForSome (device_of D.device self.old).contents (λ files. len ≡ length (files file))) }
        ensures kept { OnlyReads (device_of D.device self.old) (device_of D.device self.new) }
        ensures stays { IsSameButDisk self.old self.new }
        ensures cause { FailsBy ⊥ (device_of D.device self.old) (device_of D.device self.new) result }
    {
        self.disk.len(file)
    }

    /// Fills the slice with the bytes of a file of the area from a place on, as its disk does. A read past the end is refused.
    /// It may be asked, and leaves all, as [`file_len`](OpenArea::file_len).
    pub fn file_read(&mut self, file: FileId, at: u64, into: &mut [u8]) -> Result<(), DiskFailed>
        ensures found { OnOk result (ForSome (device_of D.device self.old).contents (λ files.
            into.new ≡ take (length into.old) (drop at (files file)))) }
        ensures kept { OnlyReads (device_of D.device self.old) (device_of D.device self.new) }
        ensures stays { IsSameButDisk self.old self.new }
        ensures cause { FailsBy
            (IsPast (device_of D.device self.old).contents file (at + length into.old))
            (device_of D.device self.old) (device_of D.device self.new) result }
    {
        self.disk.read_at(file, at, into)
    }
}

impl<D: Disk> Source for OpenArea<D> {
    ghost source = { device_of D.device };

    ghost stays = { IsSameButDisk };

    fn file_len(&mut self, file: FileId) -> Result<u64, DiskFailed> {
        OpenArea::file_len(self, file)
    }

    fn file_read(&mut self, file: FileId, at: u64, into: &mut [u8]) -> Result<(), DiskFailed> {
        OpenArea::file_read(self, file, at, into)
    }

    ghost stays_same = { same_but_disk };

    ghost stays_on = { same_on };
}
