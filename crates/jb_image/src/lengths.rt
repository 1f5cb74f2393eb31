//! The lengths of an area's files.
ghost use Rattle.std.specs.Prelude.{IfOk};
ghost use Rattle.std.specs.Option.{ForSome};
ghost use Rattle.jb_disk.specs.Device.{OnlyReads, CountsFaults};
ghost use Rattle.jb_image.specs.Answers.{is_read_fault};
ghost use Rattle.jb_image.specs.Lengths.{AreLengths};

use crate::error::ReadError;
use jb_disk::{Disk, FileId};

/// How many bytes the files have.
#[derive(Clone, Copy)]
pub(crate) struct Lengths {
    pub(crate) headers: u64,
    pub(crate) texts: u64,
    pub(crate) index: u64,
    pub(crate) lastread: u64,
}

impl Lengths {
    /// Asks the disk for all of them.
    pub(crate) fn of<D: Disk>(disk: &mut D) -> Result<Lengths, ReadError>
        ensures found { IfOk result (λ lengths. ForSome (D.device disk.old).contents (AreLengths lengths)) }
        ensures kept { OnlyReads (D.device disk.old) (D.device disk.new) }
        ensures faults { CountsFaults is_read_fault (D.device disk.old) (D.device disk.new) result }
    {
        Ok(Lengths {
            headers: disk.len(FileId::Jhr)?,
            texts: disk.len(FileId::Jdt)?,
            index: disk.len(FileId::Jdx)?,
            lastread: disk.len(FileId::Jlr)?,
        })
    }
}
