//! The reading of one field of the journal.
ghost use Rattle.std.specs.Prelude.{◌≡◌, ◌+◌, ◌^◌, ◌<◌, ◌≤◌, IfOk, IfSome, IfNone, length, true, false};
ghost use Rattle.std.specs.Option.{ForSome};
ghost use Rattle.jb_bytes.specs.Number.{number_bytes};
ghost use Rattle.jb_disk.specs.Device.{OnlyReads, CountsFaults, is_disk_fault};
ghost use Rattle.jb_disk.specs.declared.file.FileId.TheVariants.{Jnl as journal};
ghost use Rattle.jb_redo.specs.Reading.{BeginsWith};
ghost use Rattle.jb_redo.specs.Walk.{journal_from, HasVersion};

use crate::decode::{decode_number, is_same};
use jb_disk::{Disk, DiskFailed, FileId, Version};

/// Fills the slice with the bytes of the journal from a place on, if the journal, which ends at `end`, has so many.
pub(crate) fn read_bytes<D: Disk>(
    disk: &mut D,
    end: u64,
    at: u64,
    into: &mut [u8],
) -> Result<bool, DiskFailed>
    requires some { 0 < length into.old }
    requires end { ForSome (D.device disk.old).contents (λ files. end ≡ length (files journal)) }

    // The bytes, where they are there.
    ensures size { length into.new ≡ length into.old }
    ensures within { IfOk result (λ yes. yes ≡ true → at + length into.old ≤ end) }
    ensures found { IfOk result (λ yes. yes ≡ true → ForSome (D.device disk.old).contents (λ files.
        BeginsWith (journal_from files at) into.new)) }
    ensures none { IfOk result (λ yes. yes ≡ false → ForSome (D.device disk.old).contents (λ files.
        length (journal_from files at) < length into.old)) }

    // The disk is only read.
    ensures kept { OnlyReads (D.device disk.old) (D.device disk.new) }
    ensures faults { CountsFaults is_disk_fault (D.device disk.old) (D.device disk.new) result }
{
    if at > end || end - at < into.len() as u64 {
        return Ok(false);
    }
    disk.read_at(FileId::Jnl, at, into)?;
    Ok(true)
}

/// The number at a place of the journal, in so many bytes of at most eight, if they are there.
pub(crate) fn read_number<D: Disk>(
    disk: &mut D,
    end: u64,
    at: u64,
    width: usize,
) -> Result<Option<u64>, DiskFailed>
    requires some { 0 < width }
    requires few { width ≤ 8 }
    requires end { ForSome (D.device disk.old).contents (λ files. end ≡ length (files journal)) }

    // The number, where it is whole.
    ensures within { IfOk result (λ some. IfSome some (λ number. at + width ≤ end)) }
    ensures fits { IfOk result (λ some. IfSome some (λ number. number < 256 ^ width)) }
    ensures found { IfOk result (λ some. IfSome some (λ number.
        ForSome (D.device disk.old).contents (λ files.
        BeginsWith (journal_from files at) (number_bytes width number)))) }
    ensures none { IfOk result (λ some. IfNone some (ForSome (D.device disk.old).contents (λ files.
        length (journal_from files at) < width))) }

    // The disk is only read.
    ensures kept { OnlyReads (D.device disk.old) (D.device disk.new) }
    ensures faults { CountsFaults is_disk_fault (D.device disk.old) (D.device disk.new) result }
{
    let mut buffer = [0; 8];
    let bytes = &mut buffer[..width];
    if !read_bytes(disk, end, at, bytes)? {
        return Ok(None);
    }
    Ok(Some(decode_number(bytes)))
}

/// The version of the journal, which ends at `end`.
pub(crate) fn read_version<D: Disk>(disk: &mut D, end: u64) -> Result<Version, DiskFailed>
    requires { ForSome (D.device disk.old).contents (λ files. end ≡ length (files journal)) }
    ensures found { IfOk result (λ version. ForSome (D.device disk.old).contents (HasVersion version)) }
    ensures kept { OnlyReads (D.device disk.old) (D.device disk.new) }
    ensures faults { CountsFaults is_disk_fault (D.device disk.old) (D.device disk.new) result }
{
    let mut second = [0];
    if !read_bytes(disk, end, 1, &mut second)? {
        return Ok(Version::One);
    }
    Ok(Version::told_by(second[0]))
}

/// Whether these four bytes stand at a place of the journal.
pub(crate) fn has_mark<D: Disk>(
    disk: &mut D,
    end: u64,
    at: u64,
    mark: &[u8; 4],
) -> Result<bool, DiskFailed>
    requires { ForSome (D.device disk.old).contents (λ files. end ≡ length (files journal)) }

    // The mark, where it stands there.
    ensures within { IfOk result (λ yes. yes ≡ true → at + 4 ≤ end) }
    ensures found { IfOk result (λ yes. yes ≡ true → ForSome (D.device disk.old).contents (λ files.
        BeginsWith (journal_from files at) mark.now)) }
    ensures none { IfOk result (λ yes. yes ≡ false → ForSome (D.device disk.old).contents (λ files.
        BeginsWith (journal_from files at) mark.now → ⊥)) }

    // The disk is only read.
    ensures kept { OnlyReads (D.device disk.old) (D.device disk.new) }
    ensures faults { CountsFaults is_disk_fault (D.device disk.old) (D.device disk.new) result }
{
    let mut bytes = [0; 4];
    if !read_bytes(disk, end, at, &mut bytes)? {
        return Ok(false);
    }
    Ok(is_same(&bytes, mark))
}
