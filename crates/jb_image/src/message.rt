//! The second look at a slot: the subfields of a live message, and the place of its text.
ghost use Rattle.std.specs.Prelude.{◌≡◌, ◌+◌, ◌≤◌, IfOk, IfErr, length};
ghost use Rattle.std.specs.Option.{ForSome};
ghost use Rattle.jb_bytes.specs.Subfields.{IsSubfieldList, subfield_bytes};
ghost use Rattle.jb_disk.specs.Device.{OnlyReads, CountsFaults};
ghost use Rattle.jb_disk.specs.declared.file.FileId.TheVariants.{Jhr as headers_file};
ghost use Rattle.jb_record.specs.declared.index.IndexRecord.{IndexRecord};
ghost use Rattle.jb_image.specs.Answers.{IsDamaged, is_read_fault};
ghost use Rattle.jb_image.specs.Lengths.{AreLengths};
ghost use Rattle.jb_image.specs.Places.{bytes_at};
ghost use Rattle.jb_image.specs.Reading.{IsCutBy, IsLoadedFrom, IsSeenAs, IsSeenLive, IsSeenWithin};
ghost use Rattle.jb_image.specs.Stands.{HasSlot, IsLiveIn, head_of};
ghost use Rattle.jb_image.specs.Windows.{IsWindowOn};

use crate::error::{Damage, ReadError};
use crate::lengths::Lengths;
use crate::place::is_text_within;
use crate::seen::{SeenMessage, SeenSlot};
use crate::window::Window;
use jb_base::Subfields;
use jb_disk::Disk;
use jb_record::{MESSAGE_HEADER_BYTES, MessageHeader};
use jb_state::{Head, LoadedMessage, LoadedSlot};
use jb_subfield::SubfieldError;
use std::alloc::Global;

/// The subfields that stand at a place of .JHR in so many bytes, or the place of the first that is cut off.
#[inline(always)]
fn read_subfields<D: Disk>(
    alloc: Global,
    disk: &mut D,
    window: &mut Window,
    headers_len: u64,
    at: u32,
    len: u32,
) -> Result<Result<Subfields, Damage>, ReadError>
    requires few { len ≤ 262_144 }
    requires inside { at + len ≤ headers_len }
    requires window { IsWindowOn headers_file headers_len (D.device disk.old).contents window.old }
    ensures size { IfOk result (λ read. IfOk read (λ fields. length (subfield_bytes fields) ≡ len)) }
    ensures found { IfOk result (λ read. IfOk read (λ fields. ForSome (D.device disk.old).contents (λ files.
        IsSubfieldList fields (bytes_at at len (files headers_file))))) }
    ensures cut { IfOk result (λ read. IfErr read (λ damage. ForSome (D.device disk.old).contents (λ files.
        IsCutBy (bytes_at at len (files headers_file)) damage))) }
    ensures window { IsWindowOn headers_file headers_len (D.device disk.new).contents window.new }
    ensures kept { OnlyReads (D.device disk.old) (D.device disk.new) }
    ensures faults { CountsFaults is_read_fault (D.device disk.old) (D.device disk.new) result }
{
    window.reach(disk, at as u64, len as usize)?;
    let bytes = window.view(at as u64, len as usize);
    match jb_subfield::decode(alloc, bytes) {
        Ok(fields) => Ok(Ok(fields)),
        Err(SubfieldError::Cut { at }) => Ok(Err(Damage::Subfields { at })),
        Err(SubfieldError::OutOfMemory) => Err(ReadError::OutOfMemory),
    }
}

/// What a message keeps of its header.
fn head_of(header: &MessageHeader) -> Head
    ensures { result ≡ head_of header.now }
{
    Head {
        reserved: header.reserved,
        times_read: header.times_read,
        msgid_crc: header.msgid_crc,
        reply_crc: header.reply_crc,
        reply_to: header.reply_to,
        reply_first: header.reply_first,
        reply_next: header.reply_next,
        written: header.written,
        received: header.received,
        processed: header.processed,
        attribute: header.attribute,
        attribute2: header.attribute2,
        password: header.password,
        cost: header.cost,
    }
}

/// The live message whose header was read, with its subfields, or what is wrong with it.
#[inline(always)]
fn load_message<D: Disk>(
    alloc: Global,
    disk: &mut D,
    window: &mut Window,
    seen: &SeenMessage,
    lengths: &Lengths,
) -> Result<Result<LoadedMessage, Damage>, ReadError>
    requires lengths { ForSome (D.device disk.old).contents (AreLengths lengths.now) }
    requires window { IsWindowOn headers_file lengths.now.headers (D.device disk.old).contents window.old }
    requires within { IsSeenWithin lengths.now.headers (SeenSlot.Live seen.now) }
    ensures found { IfOk result (λ read. IfOk read (λ message.
        IsLoadedFrom lengths.now.texts (SeenSlot.Live seen.now) (LoadedSlot.Live message))) }
    ensures live { IfOk result (λ read. IfOk read (λ message. ForSome (D.device disk.old).contents (λ files.
        (entry : IndexRecord) → IsSeenLive files entry seen.now
        → (entry.user_crc ≡ message.owner) × IsLiveIn files message))) }
    ensures damaged { IfOk result (λ read.
        IfErr read (λ damage. ForSome (D.device disk.old).contents (λ files.
        (entry : IndexRecord) → IsSeenLive files entry seen.now → IsDamaged files entry damage))) }
    ensures window { IsWindowOn headers_file lengths.now.headers (D.device disk.new).contents window.new }
    ensures kept { OnlyReads (D.device disk.old) (D.device disk.new) }
    ensures faults { CountsFaults is_read_fault (D.device disk.old) (D.device disk.new) result }
{
    let header = &seen.header;
    let begin = seen.header_at + MESSAGE_HEADER_BYTES as u32;
    let subfields = match read_subfields(
        alloc,
        disk,
        window,
        lengths.headers,
        begin,
        header.subfields,
    )? {
        Ok(subfields) => subfields,
        Err(damage) => return Ok(Err(damage)),
    };
    if !is_text_within(lengths.texts, header.offset, header.text_len) {
        return Ok(Err(Damage::TextPlace));
    }
    Ok(Ok(LoadedMessage {
        owner: seen.owner,
        head: head_of(header),
        subfields,
        header_at: seen.header_at,
        text_at: header.offset,
        text_len: header.text_len,
    }))
}

/// The slot whose header was read, or what is wrong with its subfields or the place of its text. At most one device
/// read.
#[inline(always)]
pub(crate) fn load_slot<D: Disk>(
    alloc: Global,
    disk: &mut D,
    window: &mut Window,
    seen: &SeenSlot,
    lengths: &Lengths,
) -> Result<Result<LoadedSlot, Damage>, ReadError>
    requires lengths { ForSome (D.device disk.old).contents (AreLengths lengths.now) }
    requires window { IsWindowOn headers_file lengths.now.headers (D.device disk.old).contents window.old }
    requires within { IsSeenWithin lengths.now.headers seen.now }

    // The slot, or the first test that it fails.
    ensures found { IfOk result (λ read. IfOk read (IsLoadedFrom lengths.now.texts seen.now)) }
    ensures named { IfOk result (λ read. IfOk read (λ slot. ForSome (D.device disk.old).contents (λ files.
        (entry : IndexRecord) → IsSeenAs files entry seen.now → HasSlot files entry slot))) }
    ensures damaged { IfOk result (λ read.
        IfErr read (λ damage. ForSome (D.device disk.old).contents (λ files.
        (entry : IndexRecord) → IsSeenAs files entry seen.now → IsDamaged files entry damage))) }

    // The disk is only read.
    ensures window { IsWindowOn headers_file lengths.now.headers (D.device disk.new).contents window.new }
    ensures kept { OnlyReads (D.device disk.old) (D.device disk.new) }
    ensures faults { CountsFaults is_read_fault (D.device disk.old) (D.device disk.new) result }
{
    match seen {
        SeenSlot::Empty => Ok(Ok(LoadedSlot::Empty)),
        SeenSlot::Killed { header_at } => Ok(Ok(LoadedSlot::Killed {
            header_at: *header_at,
        })),
        SeenSlot::Live(message) => match load_message(alloc, disk, window, message, lengths)? {
            Ok(message) => Ok(Ok(LoadedSlot::Live(message))),
            Err(damage) => Ok(Err(damage)),
        },
    }
}
