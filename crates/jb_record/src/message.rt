//! The message header (JAM, "Message header").
ghost use Rattle.std.specs.Prelude.{◌≡◌, ◌↔◌, IsSome, IfSome};

use crate::signature::{SIGNATURE, is_signed};
use jb_bytes::{get_u16, get_u32, put_u16, put_u32};

/// Bytes of a message header, without its subfields.
pub const MESSAGE_HEADER_BYTES: usize = 76;
/// The one Revision that is read and written.
pub const REVISION: u16 = 1;

/// A message header: SubfieldLen, TimesRead, MSGIDcrc, REPLYcrc, ReplyTo, Reply1st, ReplyNext, DateWritten, DateReceived,
/// DateProcessed, MessageNumber, Attribute, Attribute2, Offset, TxtLen, PasswordCRC and Cost of the standard, with the two
/// reserved bytes behind the Revision. Dates are seconds since 1970, lengths and places are in bytes.
#[derive(Clone, Copy)]
pub struct MessageHeader {
    pub reserved: u16,
    pub subfields: u32,
    pub times_read: u32,
    pub msgid_crc: u32,
    pub reply_crc: u32,
    pub reply_to: u32,
    pub reply_first: u32,
    pub reply_next: u32,
    pub written: u32,
    pub received: u32,
    pub processed: u32,
    pub number: u32,
    pub attribute: u32,
    pub attribute2: u32,
    pub offset: u32,
    pub text_len: u32,
    pub password: u32,
    pub cost: u32,
}

ghost use Rattle.jb_record.specs.Message.{FitsMessageHeader, message_header_of, message_header_bytes, IsMessageHeader};
ghost use Rattle.jb_record.specs.Laws.{IsPrefixFree};

/// The header of which these are the bytes; `None` exactly where there are not 76 of them, the signature is another, or the
/// Revision is not 1.
#[tactic(auto, unfolding(crate::specs::Message::message_header_of, crate::specs::Message::message_header_bytes))]
pub fn decode_message(bytes: &[u8]) -> Option<MessageHeader>
    ensures found { IfSome result (λ header. header ≡ message_header_of bytes.now) }
    ensures spelled { IfSome result (λ header. bytes.now ≡ message_header_bytes header) }
    ensures some { IsSome result ↔ IsMessageHeader bytes.now }
{
    if bytes.len() != MESSAGE_HEADER_BYTES {
        return None;
    }
    if !is_signed(bytes) {
        return None;
    }
    if get_u16(bytes, 4) != REVISION {
        return None;
    }
    Some(MessageHeader {
        reserved: get_u16(bytes, 6),
        subfields: get_u32(bytes, 8),
        times_read: get_u32(bytes, 12),
        msgid_crc: get_u32(bytes, 16),
        reply_crc: get_u32(bytes, 20),
        reply_to: get_u32(bytes, 24),
        reply_first: get_u32(bytes, 28),
        reply_next: get_u32(bytes, 32),
        written: get_u32(bytes, 36),
        received: get_u32(bytes, 40),
        processed: get_u32(bytes, 44),
        number: get_u32(bytes, 48),
        attribute: get_u32(bytes, 52),
        attribute2: get_u32(bytes, 56),
        offset: get_u32(bytes, 60),
        text_len: get_u32(bytes, 64),
        password: get_u32(bytes, 68),
        cost: get_u32(bytes, 72),
    })
}

/// The bytes of a message header; read again they give the same value.
pub fn encode_message(value: &MessageHeader) -> [u8; 76]
    ensures exact { result ≡ message_header_bytes value.now }
    ensures back { message_header_of result ≡ value.now }
    ensures prefix_free { IsPrefixFree FitsMessageHeader message_header_bytes }
{
    spell(value)
}

#[tactic(auto, unfolding(crate::specs::Message::message_header_bytes))]
fn spell(value: &MessageHeader) -> [u8; 76]
    ensures exact { result ≡ message_header_bytes value.now }
    ensures fits { FitsMessageHeader value.now }
{
    let mut bytes = [0; MESSAGE_HEADER_BYTES];
    bytes[..4].copy_from_slice(&SIGNATURE);
    put_u16(&mut bytes, 4, REVISION);
    put_u16(&mut bytes, 6, value.reserved);
    put_u32(&mut bytes, 8, value.subfields);
    put_u32(&mut bytes, 12, value.times_read);
    put_u32(&mut bytes, 16, value.msgid_crc);
    put_u32(&mut bytes, 20, value.reply_crc);
    put_u32(&mut bytes, 24, value.reply_to);
    put_u32(&mut bytes, 28, value.reply_first);
    put_u32(&mut bytes, 32, value.reply_next);
    put_u32(&mut bytes, 36, value.written);
    put_u32(&mut bytes, 40, value.received);
    put_u32(&mut bytes, 44, value.processed);
    put_u32(&mut bytes, 48, value.number);
    put_u32(&mut bytes, 52, value.attribute);
    put_u32(&mut bytes, 56, value.attribute2);
    put_u32(&mut bytes, 60, value.offset);
    put_u32(&mut bytes, 64, value.text_len);
    put_u32(&mut bytes, 68, value.password);
    put_u32(&mut bytes, 72, value.cost);
    bytes
}
