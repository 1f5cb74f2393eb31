//! What is backed up.
ghost use Rattle.std.specs.Prelude.{◌≡◌, ◌+◌, length, take, drop, IfOk, OnOk};
ghost use Rattle.std.specs.Option.{ForSome};
ghost use Rattle.jb_disk.specs.Device.{Device, OnlyReads, IsPast, FailsBy};

use jb_disk::{DiskFailed, FileId};

/// Files that are read, as those of a [`Disk`](jb_disk::Disk) are. No call changes them.
pub trait Source {
    /// The device behind it: its count of faults, and where it tells them what the files hold.
    ghost source: { Self → Device };

    /// What a read leaves of it, as that it stands for the same. Any number of reads leaves that too.
    ghost stays: { Self → Self → Type 0 };

    /// The length of a file in bytes.
    fn file_len(&mut self, file: FileId) -> Result<u64, DiskFailed>
        ensures found { IfOk result (λ len.
            ForSome (source self.old).contents (λ files. len ≡ length (files file))) }
        ensures kept { OnlyReads (source self.old) (source self.new) }
        ensures stays { stays self.old self.new }
        ensures cause { FailsBy ⊥ (source self.old) (source self.new) result };

    /// Fills the slice with the bytes from a place on. A read past the end is refused.
    fn file_read(&mut self, file: FileId, at: u64, into: &mut [u8]) -> Result<(), DiskFailed>
        ensures found { OnOk result (ForSome (source self.old).contents (λ files.
            into.new ≡ take (length into.old) (drop at (files file)))) }
        ensures kept { OnlyReads (source self.old) (source self.new) }
        ensures stays { stays self.old self.new }
        ensures cause { FailsBy (IsPast (source self.old).contents file (at + length into.old))
            (source self.old) (source self.new) result };

    ghost stays_same: { (it : Self) → stays it it };

    ghost stays_on: { (first middle last : Self) → stays first middle → stays middle last → stays first last };
}
