//! The reading of one piece of a record.
ghost use Rattle.std.specs.Prelude.{◌+◌, ◌<◌, ◌≤◌, IfOk, IfSome, IfNone};
ghost use Rattle.std.specs.Option.{ForSome};
ghost use Rattle.jb_disk.specs.Device.{OnlyReads, CountsFaults, is_disk_fault};
ghost use Rattle.jb_disk.specs.declared.file.FileId.TheVariants.{Jnl as journal};
ghost use Rattle.jb_redo.specs.Applying.{IsSoundPart};
ghost use Rattle.jb_redo.specs.Reading.{BeginsWith};
ghost use Rattle.jb_redo.specs.Rules.{bound_of};
ghost use Rattle.jb_redo.specs.declared.part.Front.TheVariants.{Copy as copy};
ghost use Rattle.jb_redo.specs.Walk.{size_in, journal_from, front_bytes as front_spelled, front_size, AreFixedSizes, IsPartAt, HasNoPieceAt};

use crate::field::{read_bytes, read_number};
use crate::layout::{front_bytes, width};
use crate::part::{Front, MOST_FRONT_BYTES, Part, copied_part, decode_front, given_part};
use crate::sizes::Sizes;
use jb_disk::{Disk, DiskFailed, FileId};

/// The copy with this front at a place of the journal, if it is whole and stays within the files.
fn read_copy<D: Disk>(
    disk: &mut D,
    sizes: &Sizes,
    ends: &Sizes,
    at: u64,
    to_at: u64,
    len: u64,
) -> Result<Option<Part>, DiskFailed>
    requires front { at + front_size ends.now.version ≤ size_in sizes.now journal }
    requires place { to_at < bound_of ends.now.version }
    requires size { len < bound_of ends.now.version }
    requires sizes { ForSome (D.device disk.old).contents (AreFixedSizes sizes.now) }
    requires begins { ForSome (D.device disk.old).contents (λ files.
        BeginsWith (journal_from files at) (front_spelled ends.now.version (copy to_at len))) }

    // The copy, where one stands there.
    ensures within { IfOk result (λ some. IfSome some (λ part. part.behind ≤ size_in sizes.now journal)) }
    ensures sound { IfOk result (λ some. IfSome some IsSoundPart) }
    ensures found { IfOk result (λ some. IfSome some (λ part. ForSome (D.device disk.old).contents (λ files.
        IsPartAt files ends.now at part))) }
    ensures none { IfOk result (λ some. IfNone some (ForSome (D.device disk.old).contents (λ files.
        HasNoPieceAt files ends.now at))) }

    // The disk is only read.
    ensures kept { OnlyReads (D.device disk.old) (D.device disk.new) }
    ensures faults { CountsFaults is_disk_fault (D.device disk.old) (D.device disk.new) result }
{
    let end = sizes.get(FileId::Jnl);
    let place = at + front_bytes(ends.version) as u64;
    let width = width(ends.version);
    let Some(from_at) = read_number(disk, end, place, width)? else {
        return Ok(None);
    };
    Ok(copied_part(sizes, ends, place + width as u64, from_at, to_at, len))
}

/// The piece at a place of the journal, if one stands there that is whole and keeps the rules: over files that end now
/// as `sizes` says, and as `ends` says once the record's lengths are set.
pub(crate) fn read_part<D: Disk>(
    disk: &mut D,
    sizes: &Sizes,
    ends: &Sizes,
    at: u64,
) -> Result<Option<Part>, DiskFailed>
    requires { ForSome (D.device disk.old).contents (AreFixedSizes sizes.now) }

    // The piece, where one stands there.
    ensures within { IfOk result (λ some. IfSome some (λ part. part.behind ≤ size_in sizes.now journal)) }
    ensures sound { IfOk result (λ some. IfSome some IsSoundPart) }
    ensures found { IfOk result (λ some. IfSome some (λ part. ForSome (D.device disk.old).contents (λ files.
        IsPartAt files ends.now at part))) }
    ensures none { IfOk result (λ some. IfNone some (ForSome (D.device disk.old).contents (λ files.
        HasNoPieceAt files ends.now at))) }

    // The disk is only read.
    ensures kept { OnlyReads (D.device disk.old) (D.device disk.new) }
    ensures faults { CountsFaults is_disk_fault (D.device disk.old) (D.device disk.new) result }
{
    let end = sizes.get(FileId::Jnl);
    let size = front_bytes(ends.version);
    let mut buffer = [0; MOST_FRONT_BYTES];
    let bytes = &mut buffer[..size];
    if !read_bytes(disk, end, at, bytes)? {
        return Ok(None);
    }
    match decode_front(ends.version, bytes) {
        Some(Front::Bytes { to, at: to_at, len }) => {
            Ok(given_part(end, ends, at + size as u64, to, to_at, len))
        }
        Some(Front::Copy { at: to_at, len }) => read_copy(disk, sizes, ends, at, to_at, len),
        None => Ok(None),
    }
}
