//! A piece that is copied from another file.
ghost use Rattle.std.specs.Prelude.{◌≡◌, ◌≢◌, ◌+◌, ◌<◌, ◌^◌, List, [], length, OnOk};
ghost use Rattle.std.specs.Option.{ForSome, option_map};
ghost use Rattle.jb_disk.specs.declared.piece.Length.{Length};
ghost use Rattle.jb_disk.specs.declared.piece.Piece.{Piece};
ghost use Rattle.jb_disk.specs.Device.{FailsBy};
ghost use Rattle.jb_disk.specs.Files.{Files};
ghost use Rattle.jb_disk.specs.Runs.{Keeps};
ghost use Rattle.jb_redo.specs.OnTheWay.{IsOnTheWay};
ghost use Rattle.jb_journal.specs.Coming.{ComeBy};
ghost use Rattle.jb_journal.specs.Filing.{IsWrittenBy};
ghost use Rattle.jb_journal.specs.Writing.{Reaches, copied_over};

use crate::gathering::MOST_BYTES;
use jb_disk::{Disk, DiskFailed, FileId};

/// Bytes to be copied from one file into another.
#[derive(Clone, Copy)]
pub(crate) struct Copying {
    pub(crate) from: FileId,
    pub(crate) from_at: u64,
    pub(crate) to: FileId,
    pub(crate) to_at: u64,
}

// Copies as many bytes as the slice has.
fn copy_part<D: Disk>(disk: &mut D, part: Copying, bytes: &mut [u8]) -> Result<(), DiskFailed>
    requires apart { ForSome (D.device disk.old).contents (λ files. part.from ≢ part.to) }
    requires source { Reaches
        (D.device disk.old).contents part.from (part.from_at + length bytes.old) }
    requires target { Reaches (D.device disk.old).contents part.to (part.to_at + length bytes.old) }
    ensures told { OnOk result ((D.device disk.new).contents ≡ option_map (copied_over part.from
        part.from_at part.to part.to_at (length bytes.old)) (D.device disk.old).contents) }
    ensures keeps { (lengths : List Length) (pieces : List Piece) (start : Files)
        → IsWrittenBy start pieces part.to part.to_at (length bytes.old)
        → Keeps (IsOnTheWay lengths pieces start) (D.device disk.old) (D.device disk.new) }
    ensures come { OnOk result (ComeBy [] [] (D.device disk.old).moments (D.device disk.new).moments) }
    ensures cause { FailsBy ⊥ (D.device disk.old) (D.device disk.new) result }
    ensures size { length bytes.new ≡ length bytes.old }
{
    disk.read_at(part.from, part.from_at, bytes)?;
    disk.write_at(part.to, part.to_at, bytes)
}

/// Copies so many bytes, as many at once as the buffer has.
pub(crate) fn copy<D: Disk>(
    disk: &mut D,
    whole: Copying,
    len: u64,
    buffer: &mut [u8; MOST_BYTES],
) -> Result<(), DiskFailed>
    requires apart { ForSome (D.device disk.old).contents (λ files. whole.from ≢ whole.to) }
    requires from_fits { whole.from_at + len < 2 ^ 63 }
    requires to_fits { whole.to_at + len < 2 ^ 63 }
    requires source { Reaches (D.device disk.old).contents whole.from (whole.from_at + len) }
    requires target { Reaches (D.device disk.old).contents whole.to (whole.to_at + len) }
    ensures told { OnOk result ((D.device disk.new).contents ≡ option_map (copied_over whole.from
        whole.from_at whole.to whole.to_at len) (D.device disk.old).contents) }
    ensures keeps { (lengths : List Length) (pieces : List Piece) (start : Files)
        → IsWrittenBy start pieces whole.to whole.to_at len
        → Keeps (IsOnTheWay lengths pieces start) (D.device disk.old) (D.device disk.new) }
    ensures come { OnOk result (ComeBy [] [] (D.device disk.old).moments (D.device disk.new).moments) }
    ensures cause { FailsBy ⊥ (D.device disk.old) (D.device disk.new) result }
{
    let mut moved = 0;
    while moved < len {
        let count = (len - moved).min(MOST_BYTES as u64);
        let part = Copying {
            from_at: whole.from_at + moved,
            to_at: whole.to_at + moved,
            ..whole
        };
        copy_part(disk, part, &mut buffer[..count as usize])?;
        moved += count;
    }
    Ok(())
}
