//! The lastread record (JAM, "Lastread file").
ghost use Rattle.std.specs.Prelude.{◌≡◌, ◌↔◌, IsSome, IfSome, length};

use jb_bytes::{get_u32, put_u32};

/// Bytes of a lastread record.
pub const MARK_RECORD_BYTES: usize = 16;

/// A lastread record: the `jam_crc` of the user's name, the user's number, and the last and the highest number read.
#[derive(Clone, Copy)]
pub struct MarkRecord {
    pub user_crc: u32,
    pub user_id: u32,
    pub last: u32,
    pub high: u32,
}

ghost use Rattle.jb_record.specs.Lastread.{FitsMarkRecord, lastread_record_of, lastread_record_bytes};
ghost use Rattle.jb_record.specs.Laws.{IsPrefixFree};

/// The record of which these are the bytes; `None` exactly where there are not 16 of them.
#[tactic(auto, unfolding(crate::specs::Lastread::lastread_record_of, crate::specs::Lastread::lastread_record_bytes))]
pub fn decode_mark(bytes: &[u8]) -> Option<MarkRecord>
    ensures found { IfSome result (λ mark. mark ≡ lastread_record_of bytes.now) }
    ensures spelled { IfSome result (λ mark. bytes.now ≡ lastread_record_bytes mark) }
    ensures some { IsSome result ↔ (length bytes.now ≡ 16) }
{
    if bytes.len() != MARK_RECORD_BYTES {
        return None;
    }
    Some(MarkRecord {
        user_crc: get_u32(bytes, 0),
        user_id: get_u32(bytes, 4),
        last: get_u32(bytes, 8),
        high: get_u32(bytes, 12),
    })
}

/// The bytes of a lastread record; read again they give the same value.
pub fn encode_mark(value: &MarkRecord) -> [u8; 16]
    ensures exact { result ≡ lastread_record_bytes value.now }
    ensures back { lastread_record_of result ≡ value.now }
    ensures prefix_free { IsPrefixFree FitsMarkRecord lastread_record_bytes }
{
    spell(value)
}

#[tactic(auto, unfolding(crate::specs::Lastread::lastread_record_bytes))]
fn spell(value: &MarkRecord) -> [u8; 16]
    ensures exact { result ≡ lastread_record_bytes value.now }
    ensures fits { FitsMarkRecord value.now }
{
    let mut bytes = [0; 16];
    put_u32(&mut bytes, 0, value.user_crc);
    put_u32(&mut bytes, 4, value.user_id);
    put_u32(&mut bytes, 8, value.last);
    put_u32(&mut bytes, 12, value.high);
    bytes
}
