//! Tests of places and lengths.
ghost use Rattle.std.specs.Prelude.{◌↔◌, IsTrue};
ghost use Rattle.jb_state.specs.Sound.{IsWithin, IsTextWithin};

use jb_base::{HEADERS_CEILING, MOST_TEXT_BYTES, TEXTS_CEILING};
use jb_record::FIXED_HEADER_BYTES;

/// Whether so many bytes from a place on lie behind the fixed header, within .JHR and within its ceiling.
pub(crate) fn is_within(headers_len: u64, at: u32, len: u32) -> bool
    ensures { IsTrue result ↔ IsWithin headers_len at len }
{
    let end = at as u64 + len as u64;
    at as usize >= FIXED_HEADER_BYTES && end <= headers_len && end <= HEADERS_CEILING
}

/// Whether a text lies within .JDT and within its ceiling; the place of an empty one is not looked at.
pub(crate) fn is_text_within(texts_len: u64, at: u32, len: u32) -> bool
    ensures { IsTrue result ↔ IsTextWithin texts_len at len }
{
    let end = at as u64 + len as u64;
    len <= MOST_TEXT_BYTES && (len == 0 || end <= texts_len && end <= TEXTS_CEILING)
}
