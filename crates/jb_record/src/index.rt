//! The index record (JAM, "Index file").
ghost use Rattle.std.specs.Prelude.{◌≡◌, ◌↔◌, IsSome, IfSome, length};

use jb_bytes::{get_u32, put_u32};

/// Bytes of an index record.
pub const INDEX_RECORD_BYTES: usize = 8;
/// The place that an index record of an empty slot has; a written one has the same bits for its CRC.
pub const EMPTY_SLOT: u32 = 0xFFFF_FFFF;

/// An index record: the `jam_crc` of the receiver's name, and the place of the header in .JHR.
#[derive(Clone, Copy)]
pub struct IndexRecord {
    pub user_crc: u32,
    pub offset: u32,
}

ghost use Rattle.jb_record.specs.Index.{FitsIndexRecord, index_record_of, index_record_bytes};
ghost use Rattle.jb_record.specs.Laws.{IsPrefixFree};

/// The record of which these are the bytes; `None` exactly where there are not 8 of them.
#[tactic(auto, unfolding(crate::specs::Index::index_record_of, crate::specs::Index::index_record_bytes))]
pub fn decode_index(bytes: &[u8]) -> Option<IndexRecord>
    ensures found { IfSome result (λ entry. entry ≡ index_record_of bytes.now) }
    ensures spelled { IfSome result (λ entry. bytes.now ≡ index_record_bytes entry) }
    ensures some { IsSome result ↔ (length bytes.now ≡ 8) }
{
    if bytes.len() != INDEX_RECORD_BYTES {
        return None;
    }
    Some(IndexRecord {
        user_crc: get_u32(bytes, 0),
        offset: get_u32(bytes, 4),
    })
}

/// The bytes of an index record; read again they give the same value.
pub fn encode_index(value: &IndexRecord) -> [u8; 8]
    ensures exact { result ≡ index_record_bytes value.now }
    ensures back { index_record_of result ≡ value.now }
    ensures prefix_free { IsPrefixFree FitsIndexRecord index_record_bytes }
{
    spell(value)
}

#[tactic(auto, unfolding(crate::specs::Index::index_record_bytes))]
fn spell(value: &IndexRecord) -> [u8; 8]
    ensures exact { result ≡ index_record_bytes value.now }
    ensures fits { FitsIndexRecord value.now }
{
    let mut bytes = [0; 8];
    put_u32(&mut bytes, 0, value.user_crc);
    put_u32(&mut bytes, 4, value.offset);
    bytes
}
