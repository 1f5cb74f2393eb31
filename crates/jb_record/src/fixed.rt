//! The fixed header (JAM, "Header file").
ghost use Rattle.std.specs.Prelude.{◌≡◌, ◌↔◌, IsSome, IfSome};

use crate::signature::{SIGNATURE, is_signed};
use jb_bytes::{get_u32, put_u32};

/// Bytes of the fixed header.
pub const FIXED_HEADER_BYTES: usize = 1_024;
/// Bytes of the fixed header that are reserved.
pub const RESERVED_BYTES: usize = 1_000;

/// The fixed header: datecreated, modcounter, activemsgs, passwordcrc and basemsgnum of the standard, and its reserved
/// bytes.
#[derive(Clone, Copy)]
pub struct FixedHeader {
    pub created: u32,
    pub counter: u32,
    pub active: u32,
    pub password: u32,
    pub base: u32,
    pub reserved: [u8; 1000],
}

ghost use Rattle.jb_record.specs.Fixed.{FitsFixedHeader, IsFixedRecord, fixed_header_of, fixed_header_bytes, IsFixedHeader};
ghost use Rattle.jb_record.specs.Laws.{IsPrefixFree};

/// The header of which these are the bytes; `None` exactly where there are not 1,024 of them, or the signature is another.
#[tactic(auto, unfolding(crate::specs::Fixed::fixed_header_of, crate::specs::Fixed::fixed_header_bytes))]
pub fn decode_fixed(bytes: &[u8]) -> Option<FixedHeader>
    ensures found { IfSome result (λ header. header ≡ fixed_header_of bytes.now) }
    ensures spelled { IfSome result (λ header. bytes.now ≡ fixed_header_bytes header) }
    ensures some { IsSome result ↔ IsFixedHeader bytes.now }
{
    if bytes.len() != FIXED_HEADER_BYTES {
        return None;
    }
    if !is_signed(bytes) {
        return None;
    }
    let mut reserved = [0; RESERVED_BYTES];
    reserved.copy_from_slice(&bytes[24..]);
    Some(FixedHeader {
        created: get_u32(bytes, 4),
        counter: get_u32(bytes, 8),
        active: get_u32(bytes, 12),
        password: get_u32(bytes, 16),
        base: get_u32(bytes, 20),
        reserved,
    })
}

/// The bytes of a fixed header; read again they give the same value.
pub fn encode_fixed(value: &FixedHeader) -> [u8; 1024]
    ensures exact { result ≡ fixed_header_bytes value.now }
    ensures back { fixed_header_of result ≡ value.now }
    ensures prefix_free { IsPrefixFree IsFixedRecord fixed_header_bytes }
{
    spell(value)
}

#[tactic(auto, unfolding(crate::specs::Fixed::fixed_header_bytes))]
fn spell(value: &FixedHeader) -> [u8; 1024]
    ensures exact { result ≡ fixed_header_bytes value.now }
    ensures fits { FitsFixedHeader value.now }
{
    let mut bytes = [0; FIXED_HEADER_BYTES];
    bytes[..4].copy_from_slice(&SIGNATURE);
    put_u32(&mut bytes, 4, value.created);
    put_u32(&mut bytes, 8, value.counter);
    put_u32(&mut bytes, 12, value.active);
    put_u32(&mut bytes, 16, value.password);
    put_u32(&mut bytes, 20, value.base);
    bytes[24..].copy_from_slice(&value.reserved);
    bytes
}
