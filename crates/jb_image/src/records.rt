//! The records of a base as an area has them: the way back from what is read (JAM, "Header file", "Message header",
//! "SubFields", "Index file", "Lastread file").
ghost use Rattle.std.specs.Prelude.{◌≡◌, ◌≤◌, All, IfOk, OnOk, length};
ghost use Rattle.jb_bytes.specs.Subfields.{IsSubfield, subfield_bytes};
ghost use Rattle.jb_limits.specs.declared.limits.TheConstants.{MOST_SUBFIELD_BYTES};
ghost use Rattle.jb_image.specs.Records.{IsEntryReadAgain, IsHeaderReadAgain, IsMarkReadAgain, message_bytes, numbered_header, with_fields};
ghost use Rattle.jb_image.specs.Stands.{fixed_of, mark_record};
ghost use Rattle.jb_state.specs.Loaded.{header_size};
ghost use Rattle.jb_record.specs.Index.{index_record_bytes};
ghost use Rattle.jb_record.specs.Lastread.{lastread_record_bytes};

use jb_base::{Bytes, OutOfMemory};
use jb_record::{
    FixedHeader, IndexRecord, MarkRecord, MessageHeader, encode_index, encode_mark, encode_message,
};
use jb_state::{Head, Loaded, LoadedMessage, Mark};
use std::alloc::Global;

/// The fixed header of an area.
pub fn fixed_of(loaded: &Loaded) -> FixedHeader
    ensures { result ≡ fixed_of loaded.now }
{
    FixedHeader {
        created: loaded.created,
        counter: loaded.counter,
        active: loaded.active,
        password: loaded.password,
        base: loaded.base,
        reserved: loaded.reserved,
    }
}

/// The header of a message with this number, these fields and its text at this place, before so many bytes of subfields.
fn header_of(
    message: &LoadedMessage,
    head: &Head,
    number: u32,
    text_at: u32,
    subfield_len: u32,
) -> MessageHeader
    requires { subfield_len ≡ length (subfield_bytes message.now.subfields) }
    ensures { result ≡ numbered_header number (with_fields head.now text_at message.now) }
{
    MessageHeader {
        reserved: head.reserved,
        subfields: subfield_len,
        times_read: head.times_read,
        msgid_crc: head.msgid_crc,
        reply_crc: head.reply_crc,
        reply_to: head.reply_to,
        reply_first: head.reply_first,
        reply_next: head.reply_next,
        written: head.written,
        received: head.received,
        processed: head.processed,
        number,
        attribute: head.attribute,
        attribute2: head.attribute2,
        offset: text_at,
        text_len: message.text_len,
        password: head.password,
        cost: head.cost,
    }
}

/// Writes the header of a message and the subfields behind it, as they stand in .JHR, in place of what the bytes were: with
/// this number, these fields, and its text at this place. It takes memory only where theirs is too little.
pub fn write_message(
    into: &mut Vec<u8>,
    message: &LoadedMessage,
    head: &Head,
    number: u32,
    text_at: u32,
) -> Result<(), OutOfMemory>
    requires { length (subfield_bytes message.now.subfields) ≤ MOST_SUBFIELD_BYTES }
    ensures exact { OnOk result (into.new.items
        ≡ message_bytes number (with_fields head.now text_at message.now)) }
    ensures size { OnOk result (length into.new.items ≡ header_size message.now) }
    ensures back { OnOk result (IsHeaderReadAgain number (with_fields head.now text_at message.now)) }
    ensures fit { OnOk result (All IsSubfield message.now.subfields) }
{
    let subfields = message.subfields.as_bytes();
    let header = header_of(message, head, number, text_at, subfields.len() as u32);
    into.clear();
    into.extend_from_slice(&encode_message(&header))?;
    into.extend_from_slice(subfields)?;
    Ok(())
}

/// The header of a message and the subfields behind it, as [`write_message`] writes them.
pub fn message_bytes(
    alloc: Global,
    message: &LoadedMessage,
    head: &Head,
    number: u32,
    text_at: u32,
) -> Result<Bytes, OutOfMemory>
    requires { length (subfield_bytes message.now.subfields) ≤ MOST_SUBFIELD_BYTES }
    ensures exact { IfOk result (λ bytes.
        bytes ≡ message_bytes number (with_fields head.now text_at message.now)) }
    ensures size { IfOk result (λ bytes. length bytes ≡ header_size message.now) }
    ensures back { OnOk result (IsHeaderReadAgain number (with_fields head.now text_at message.now)) }
    ensures fit { OnOk result (All IsSubfield message.now.subfields) }
{
    let mut bytes = Vec::new(alloc);
    write_message(&mut bytes, message, head, number, text_at)?;
    Ok(Bytes::from(bytes))
}

/// The index record of a message for the receiver with this CRC, whose header stands at this place.
pub fn entry_bytes(owner: u32, header_at: u32) -> [u8; 8]
    ensures exact { result ≡ index_record_bytes (record { user_crc = owner; offset = header_at }) }
    ensures back { IsEntryReadAgain (record { user_crc = owner; offset = header_at }) }
{
    encode_index(&IndexRecord {
        user_crc: owner,
        offset: header_at,
    })
}

/// The lastread record of a mark.
pub fn mark_bytes(mark: &Mark) -> [u8; 16]
    ensures exact { result ≡ lastread_record_bytes (mark_record mark.now) }
    ensures back { IsMarkReadAgain mark.now }
{
    encode_mark(&MarkRecord {
        user_crc: mark.user_crc,
        user_id: mark.user_id,
        last: mark.last,
        high: mark.high,
    })
}
