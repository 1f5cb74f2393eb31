//! The first look at a slot: its header, without the subfields.
ghost use Rattle.std.specs.Prelude.{◌≡◌, ◌≢◌, ◌+◌, ◌≤◌, ◌↔◌, IsTrue, IfOk, IfErr, OnOk, length, take};
ghost use Rattle.std.specs.Option.{ForSome};
ghost use Rattle.jb_disk.specs.Device.{OnlyReads, CountsFaults};
ghost use Rattle.jb_state.specs.Sound.{IsWithin};
ghost use Rattle.jb_record.specs.Fields.{signature};
ghost use Rattle.jb_record.specs.declared.index.TheConstants.{EMPTY_SLOT as empty_slot};
ghost use Rattle.jb_image.specs.Answers.{IsDamaged, is_read_fault};
ghost use Rattle.jb_image.specs.Lengths.{AreLengths};
ghost use Rattle.jb_image.specs.Places.{header_in};
ghost use Rattle.jb_image.specs.Reading.{IsSeenAs, IsSeenWithin};
ghost use Rattle.jb_image.specs.Stands.{HasHeader};
ghost use Rattle.jb_image.specs.Windows.{IsWindowOn};
ghost use Rattle.jb_disk.specs.declared.file.FileId.TheVariants.{Jhr as headers_file};

use crate::error::{Damage, ReadError};
use crate::lengths::Lengths;
use crate::place::is_within;
use crate::seen::{SeenMessage, SeenSlot};
use crate::window::Window;
use jb_base::{DELETED, MOST_SUBFIELD_BYTES};
use jb_disk::Disk;
use jb_record::{EMPTY_SLOT, IndexRecord, MESSAGE_HEADER_BYTES, MessageHeader, decode_message};

/// Whether bytes begin with `JAM` and a zero byte.
fn is_signed(bytes: &[u8]) -> bool
    requires { 4 ≤ length bytes.now }
    ensures { IsTrue result ↔ (take 4 bytes.now ≡ signature) }
{
    &bytes[..4] == b"JAM\0".as_slice()
}

/// The message header that an index record names, or what is wrong with it, by a window on .JHR.
#[inline(always)]
fn read_header<D: Disk>(
    disk: &mut D,
    window: &mut Window,
    entry: &IndexRecord,
    lengths: &Lengths,
) -> Result<Result<MessageHeader, Damage>, ReadError>
    requires lengths { ForSome (D.device disk.old).contents (AreLengths lengths.now) }
    requires window { IsWindowOn headers_file lengths.now.headers (D.device disk.old).contents window.old }
    requires there { entry.now.offset ≢ empty_slot }
    ensures inside { IfOk result (λ read. OnOk read (IsWithin lengths.now.headers entry.now.offset 76)) }
    ensures found { IfOk result (λ read. IfOk read (λ header. ForSome (D.device disk.old).contents (λ files.
        HasHeader files entry.now.offset × (header ≡ header_in files entry.now.offset)))) }
    ensures damaged { IfOk result (λ read.
        IfErr read (λ damage. ForSome (D.device disk.old).contents (λ files.
        IsDamaged files entry.now damage))) }
    ensures window { IsWindowOn headers_file lengths.now.headers (D.device disk.new).contents window.new }
    ensures kept { OnlyReads (D.device disk.old) (D.device disk.new) }
    ensures faults { CountsFaults is_read_fault (D.device disk.old) (D.device disk.new) result }
{
    if !is_within(lengths.headers, entry.offset, MESSAGE_HEADER_BYTES as u32) {
        return Ok(Err(Damage::HeaderPlace));
    }
    window.reach(disk, entry.offset as u64, MESSAGE_HEADER_BYTES)?;
    let bytes = window.view(entry.offset as u64, MESSAGE_HEADER_BYTES);
    if !is_signed(bytes) {
        return Ok(Err(Damage::HeaderSignature));
    }
    match decode_message(bytes) {
        Some(header) => Ok(Ok(header)),
        None => Ok(Err(Damage::HeaderRevision)),
    }
}

/// Whether the subfields of a live message lie behind its header within .JHR.
fn are_subfields_within(headers_len: u64, at: u32, subfields: u32) -> bool
    ensures { IsTrue result ↔ ((subfields ≤ 262_144) × IsWithin headers_len at (76 + subfields)) }
{
    subfields <= MOST_SUBFIELD_BYTES
        && is_within(headers_len, at, MESSAGE_HEADER_BYTES as u32 + subfields)
}

/// The slot that an index record names, or what is wrong with its header, as far as that is seen without the subfields.
/// At most one device read.
#[inline(always)]
pub(crate) fn see_slot<D: Disk>(
    disk: &mut D,
    window: &mut Window,
    entry: &IndexRecord,
    lengths: &Lengths,
) -> Result<Result<SeenSlot, Damage>, ReadError>
    requires lengths { ForSome (D.device disk.old).contents (AreLengths lengths.now) }
    requires window { IsWindowOn headers_file lengths.now.headers (D.device disk.old).contents window.old }

    // The slot, or the first test that it fails.
    ensures within { IfOk result (λ read. IfOk read (IsSeenWithin lengths.now.headers)) }
    ensures found { IfOk result (λ read. IfOk read (λ slot. ForSome (D.device disk.old).contents (λ files.
        IsSeenAs files entry.now slot))) }
    ensures damaged { IfOk result (λ read.
        IfErr read (λ damage. ForSome (D.device disk.old).contents (λ files.
        IsDamaged files entry.now damage))) }

    // The disk is only read.
    ensures window { IsWindowOn headers_file lengths.now.headers (D.device disk.new).contents window.new }
    ensures kept { OnlyReads (D.device disk.old) (D.device disk.new) }
    ensures faults { CountsFaults is_read_fault (D.device disk.old) (D.device disk.new) result }
{
    if entry.offset == EMPTY_SLOT {
        return Ok(Ok(SeenSlot::Empty));
    }
    let header_at = entry.offset;
    let header = match read_header(disk, window, entry, lengths)? {
        Ok(header) => header,
        Err(damage) => return Ok(Err(damage)),
    };
    if header.attribute & DELETED != 0 {
        return Ok(Ok(SeenSlot::Killed { header_at }));
    }
    if !are_subfields_within(lengths.headers, header_at, header.subfields) {
        return Ok(Err(Damage::HeaderPlace));
    }
    Ok(Ok(SeenSlot::Live(SeenMessage {
        owner: entry.user_crc,
        header_at,
        header,
    })))
}
