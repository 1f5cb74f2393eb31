//! The subfield with which bytes begin, where it lies.
ghost use Rattle.std.specs.Prelude.{◌≡◌, MatchOption};
ghost use Rattle.jb_bytes.specs.Whole.{BeginsWithField, HasNoWhole};

use crate::{get_u16, get_u32};

/// Bytes before the data: LoID, HiID and the length of the data.
pub(crate) const HEAD: usize = 8;

/// A subfield that lies in bytes, and the bytes behind it.
#[derive(Clone, Copy)]
pub struct Part<'a> {
    pub id: u16,
    pub hi: u16,
    pub content: &'a [u8],
    pub behind: &'a [u8],
}

/// The subfield with which the bytes begin, where one is whole.
pub fn first_part(bytes: &[u8]) -> Option<Part<'_>>
    ensures { MatchOption result (HasNoWhole bytes.now) (λ part. BeginsWithField bytes.now
        (record { id = part.id; hi = part.hi; bytes = part.content.now }) part.behind.now) }
{
    if bytes.len() < HEAD {
        return None;
    }
    let len = get_u32(bytes, 4) as usize;
    let rest = &bytes[HEAD..];
    if rest.len() < len {
        return None;
    }
    Some(Part {
        id: get_u16(bytes, 0),
        hi: get_u16(bytes, 2),
        content: &rest[..len],
        behind: &rest[len..],
    })
}
