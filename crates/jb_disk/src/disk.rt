//! The trait of a device with six files.
ghost use Rattle.std.specs.Prelude.{◌≡◌, ◌⊎◌, ◌+◌, ◌≤◌, length, take, drop, IfOk, OnOk, OnErr};
ghost use Rattle.std.specs.Option.{ForSome, option_map};
ghost use Rattle.jb_disk.specs.Files.{ceiling_of, written};
ghost use Rattle.jb_disk.specs.Device.{Device, IsRefused, OnlyReads, Tears, Resizes, Syncs, IsPast, FailsBy, TellsAnImage, and_then};
ghost use Rattle.jb_disk.specs.Images.{torn, cut, with_image};

use crate::FileId;
use std::error::Error;
use std::fmt;

/// The device did not do it. Where that was no call past a file's end, its count of faults rose; a call that is done raises it
/// never.
#[derive(Clone, Copy, Debug, PartialEq, Eq)]
pub struct DiskFailed;

impl fmt::Display for DiskFailed {
    fn fmt<W: fmt::Write>(&self, f: &mut fmt::Formatter<W>) -> fmt::Result {
        write!(f, "the disk failed")
    }
}

impl Error for DiskFailed {}

/// Six files that are read, written, resized and synced. No call waits, and none takes memory of its caller.
pub trait Disk {
    /// Its count of faults, and where it tells them what the files hold and what a crash may leave.
    ghost device: { Self → Device };

    /// The call that comes next is one that it was told to fail, as a disk in memory is for a test.
    ghost fails_next: { Self → Type 0 } = { λ _. ⊥ };

    /// What holds of it before and after a call that a fault refused: a disk in memory was told to fail this call, or did not keep it.
    ghost may_fail: { Self → Self → Type 0 } = { λ _ _. Unit {0} };

    /// The length of a file in bytes; a file that is not there has length 0.
    fn len(&mut self, file: FileId) -> Result<u64, DiskFailed>
        ensures found { IfOk result (λ len.
            ForSome (device self.old).contents (λ files. len ≡ length (files file))) }
        ensures kept { OnlyReads (device self.old) (device self.new) }
        ensures listed { fails_next self.old → IsRefused (device self.old) (device self.new) result }
        ensures spared { OnErr result (may_fail self.old self.new) }
        ensures cause { FailsBy ⊥ (device self.old) (device self.new) result };

    /// Fills the slice with the bytes from a place on. A read past the end is refused.
    fn read_at(&mut self, file: FileId, at: u64, into: &mut [u8]) -> Result<(), DiskFailed>
        ensures found { OnOk result (ForSome (device self.old).contents (λ files.
            into.new ≡ take (length into.old) (drop at (files file)))) }
        ensures kept { OnlyReads (device self.old) (device self.new) }
        ensures listed { fails_next self.old → IsRefused (device self.old) (device self.new) result }
        ensures spared { OnErr result (may_fail self.old self.new
            ⊎ IsPast (device self.old).contents file (at + length into.old)) }
        ensures cause { FailsBy (IsPast (device self.old).contents file (at + length into.old))
            (device self.old) (device self.new) result };

    /// Writes over what is there. A write past the end is refused and changes nothing. Until a sync of this file a crash
    /// may leave any bytes in the range. After a fault this file may read as anything that a crash might leave of it.
    fn write_at(&mut self, file: FileId, at: u64, bytes: &[u8]) -> Result<(), DiskFailed>
        // What is read, and what a crash may leave.
        ensures ok { OnOk result ((device self.new).contents
            ≡ option_map (written file at bytes.now) (device self.old).contents) }
        ensures changed { Tears file at (length bytes.now) (device self.old) (device self.new) result }
        ensures crash { OnOk result ((device self.new).moments
            ≡ and_then (with_image file (torn at (length bytes.now))) (device self.old).moments) }

        // A range past the end, or a fault.
        ensures past { IsPast (device self.old).contents file (at + length bytes.now)
            → OnlyReads (device self.old) (device self.new) }
        ensures listed { fails_next self.old → IsRefused (device self.old) (device self.new) result }
        ensures spared { OnErr result (may_fail self.old self.new
            ⊎ IsPast (device self.old).contents file (at + length bytes.now)) }
        ensures cause { FailsBy (IsPast (device self.old).contents file (at + length bytes.now))
            (device self.old) (device self.new) result };

    /// Sets a file's length. Which bytes a growth brings is left open. Until a sync a crash may leave any length between,
    /// and any bytes at or past the lesser one. After a fault this file may read as anything that a crash might leave of it.
    fn set_len(&mut self, file: FileId, len: u64) -> Result<(), DiskFailed>
        requires { len ≤ ceiling_of file }
        ensures changed { Resizes file len (device self.old) (device self.new) result }
        ensures crash { OnOk result ((device self.new).moments
            ≡ and_then (with_image file (cut len)) (device self.old).moments) }
        ensures listed { fails_next self.old → IsRefused (device self.old) (device self.new) result }
        ensures spared { OnErr result (may_fail self.old self.new) }
        ensures cause { FailsBy ⊥ (device self.old) (device self.new) result };

    /// Makes a file durable: from here on a crash leaves of it what a read gives. A fault may have lost what was written
    /// since the last sync: then this file may read as anything that a crash might leave of it.
    fn sync(&mut self, file: FileId) -> Result<(), DiskFailed>
        ensures changed { Syncs file (device self.old) (device self.new) result }
        ensures listed { fails_next self.old → IsRefused (device self.old) (device self.new) result }
        ensures spared { OnErr result (may_fail self.old self.new) }
        ensures cause { FailsBy ⊥ (device self.old) (device self.new) result };

    /// Sees that each file that is there can be written from now on. It changes nothing.
    fn claim(&mut self) -> Result<(), DiskFailed>
        ensures kept { OnlyReads (device self.old) (device self.new) }
        ensures cause { FailsBy ⊥ (device self.old) (device self.new) result }
    {
        Ok(())
    }

    /// What is read now is one of the images, a disk that tells images tells its contents, and each moment has an image.
    ghost told: { (disk : Self) → TellsAnImage (device disk) };
}
