//! The lengths of the six files.
ghost use Rattle.std.specs.Prelude.{◌≡◌, ◌<◌, IfOk};
ghost use Rattle.std.specs.Option.{ForSome};
ghost use Rattle.jb_disk.specs.Device.{OnlyReads, CountsFaults, is_disk_fault};
ghost use Rattle.jb_redo.specs.Rules.{with_size};
ghost use Rattle.jb_redo.specs.Walk.{AreSizes, HasVersion, size_in};

use crate::field::read_version;
use jb_disk::{Disk, DiskFailed, FileId, Length, Version};

/// How many bytes each file has, by the file's number, and the version of the journal.
#[derive(Clone, Copy)]
pub(crate) struct Sizes {
    by_file: [u64; 6],
    pub(crate) version: Version,
}

impl Sizes {
    /// Asks the disk for all of them.
    pub(crate) fn of<D: Disk>(disk: &mut D) -> Result<Sizes, DiskFailed>
        ensures found { IfOk result (λ sizes. ForSome (D.device disk.old).contents (AreSizes sizes)) }
        ensures version { IfOk result (λ sizes. ForSome (D.device disk.old).contents (HasVersion sizes.version)) }
        ensures kept { OnlyReads (D.device disk.old) (D.device disk.new) }
        ensures faults { CountsFaults is_disk_fault (D.device disk.old) (D.device disk.new) result }
    {
        let by_file = [
            disk.len(FileId::Jhr)?,
            disk.len(FileId::Jdt)?,
            disk.len(FileId::Jdx)?,
            disk.len(FileId::Jlr)?,
            disk.len(FileId::Jnl)?,
            disk.len(FileId::Ndt)?,
        ];
        let version = read_version(disk, by_file[4])?;
        Ok(Sizes { by_file, version })
    }

    /// The length of a file.
    pub(crate) fn get(&self, file: FileId) -> u64
        ensures { result ≡ size_in self.now file }
    {
        self.by_file[file.number() as usize]
    }

    /// Keeps a new length of a file.
    pub(crate) fn set(&mut self, entry: Length)
        ensures sizes { size_in self.new ≡ with_size entry (size_in self.old) }
        ensures version { self.new.version ≡ self.old.version }
    {
        self.by_file[entry.file.number() as usize] = entry.len;
    }
}
