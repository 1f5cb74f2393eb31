//! The tests of the files as a whole: the fixed header and the lengths.
ghost use Rattle.std.specs.Prelude.{◌≡◌, ◌+◌, ◌≤◌, IfOk, IfErr};
ghost use Rattle.std.specs.Option.{ForSome};
ghost use Rattle.jb_disk.specs.Device.{OnlyReads, CountsFaults};
ghost use Rattle.jb_record.specs.Fixed.{IsFixedHeader};
ghost use Rattle.jb_disk.specs.declared.file.FileId.TheVariants.{Jhr as headers_file};
ghost use Rattle.jb_image.specs.Answers.{IsRefusedBy, is_open_fault};
ghost use Rattle.jb_image.specs.Lengths.{AreLengths};
ghost use Rattle.jb_image.specs.Places.{bytes_at, fixed_in};
ghost use Rattle.jb_image.specs.Reading.{IsCount, IsMiscounted};
ghost use Rattle.jb_image.specs.Windows.{IsWindowOn};

use crate::OpenError;
use crate::lengths::Lengths;
use crate::window::Window;
use jb_base::LASTREAD_CEILING;
use jb_disk::Disk;
use jb_record::{
    FIXED_HEADER_BYTES, FixedHeader, INDEX_RECORD_BYTES, MARK_RECORD_BYTES, decode_fixed,
};

/// The fixed header, by a window on .JHR. At most one device read.
pub(crate) fn read_fixed<D: Disk>(
    disk: &mut D,
    window: &mut Window,
    lengths: &Lengths,
    limit: u32,
) -> Result<FixedHeader, OpenError>
    requires lengths { ForSome (D.device disk.old).contents (AreLengths lengths.now) }
    requires window { IsWindowOn headers_file lengths.now.headers (D.device disk.old).contents window.old }
    ensures base { IfOk result (λ fixed. 1 ≤ fixed.base) }
    ensures long { IfOk result (λ _. 1024 ≤ lengths.now.headers) }
    ensures found { IfOk result (λ fixed. ForSome (D.device disk.old).contents (λ files.
        IsFixedHeader (bytes_at 0 1024 (files headers_file)) × (fixed ≡ fixed_in files))) }
    ensures refused { IfErr result (λ error. ForSome (D.device disk.old).contents (λ files.
        IsRefusedBy limit files error)) }
    ensures window { IsWindowOn headers_file lengths.now.headers (D.device disk.new).contents window.new }
    ensures kept { OnlyReads (D.device disk.old) (D.device disk.new) }
    ensures faults { CountsFaults is_open_fault (D.device disk.old) (D.device disk.new) result }
{
    if lengths.headers < FIXED_HEADER_BYTES as u64 {
        return Err(OpenError::ShortHeader);
    }
    window.reach(disk, 0, FIXED_HEADER_BYTES)?;
    let Some(fixed) = decode_fixed(window.view(0, FIXED_HEADER_BYTES)) else {
        return Err(OpenError::BadSignature);
    };
    if fixed.base == 0 {
        return Err(OpenError::BaseZero);
    }
    Ok(fixed)
}

/// How many slots the base has, by the length of its index, if that and the length of the lastread file may be.
pub(crate) fn count_slots(
    fixed: &FixedHeader,
    lengths: &Lengths,
    limit: u32,
) -> Result<u32, OpenError>
    ensures found { IfOk result (IsCount fixed.now lengths.now limit) }
    ensures refused { IfErr result (IsMiscounted fixed.now lengths.now limit) }
{
    if lengths.index % INDEX_RECORD_BYTES as u64 != 0 {
        return Err(OpenError::IndexLength);
    }
    if lengths.lastread % MARK_RECORD_BYTES as u64 != 0 || lengths.lastread > LASTREAD_CEILING {
        return Err(OpenError::LastreadLength);
    }
    let count = lengths.index / INDEX_RECORD_BYTES as u64;
    if count > limit as u64 {
        return Err(OpenError::TooManySlots);
    }
    if fixed.base as u64 + count > u32::MAX as u64 {
        return Err(OpenError::NumberRange);
    }
    Ok(count as u32)
}
