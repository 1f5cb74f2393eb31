//! A piece as it stands in the journal: where its bytes are, and where they go.
ghost use Rattle.std.specs.Prelude.{◌≡◌, ◌+◌, ◌<◌, ◌≤◌, ◌↔◌, IsTrue, IfSome, IfNone, length};
ghost use Rattle.jb_disk.specs.declared.file.FileId.TheVariants.{Jdt as texts, Ndt as shadow};
ghost use Rattle.jb_disk.specs.Files.{file_number};
ghost use Rattle.jb_redo.specs.Applying.{IsSoundPart};
ghost use Rattle.jb_redo.specs.declared.part.Front.{Front};
ghost use Rattle.jb_redo.specs.Walk.{size_in, front_bytes, front_size, IsLegalFront, given_part_of, copied_part_of};

use crate::decode::{base_file, decode_number};
use crate::layout::width;
use crate::sizes::Sizes;
use jb_disk::{FileId, Version};

/// The most bytes that stand before what a piece brings with it.
pub(crate) const MOST_FRONT_BYTES: usize = 20;

/// The front of a piece: what stands before its bytes, or before the place copied from.
#[derive(Clone, Copy)]
pub(crate) enum Front {
    Bytes { to: FileId, at: u64, len: u64 },
    Copy { at: u64, len: u64 },
}

/// So many bytes of a file that go to a place of another, and where in the journal the piece ends that says so.
#[derive(Clone, Copy)]
pub(crate) struct Part {
    pub(crate) from: FileId,
    pub(crate) from_at: u64,
    pub(crate) to: FileId,
    pub(crate) to_at: u64,
    pub(crate) len: u64,
    pub(crate) behind: u64,
}

/// The front that has these bytes, if there is one.
pub(crate) fn decode_front(version: Version, bytes: &[u8]) -> Option<Front>
    requires { length bytes.now ≡ front_size version }
    ensures found { IfSome result (λ front.
        (bytes.now ≡ front_bytes version front) × IsLegalFront version front) }
    ensures none { IfNone result ((front : Front)
        → IsLegalFront version front → bytes.now ≡ front_bytes version front → ⊥) }
{
    let [kind, to, from, 0, numbers @ ..] = bytes else {
        return None;
    };
    let (at, len) = numbers.split_at(width(version));
    let at = decode_number(at);
    let len = decode_number(len);
    match (*kind, *to, *from) {
        (0, to, 0) => Some(Front::Bytes {
            to: base_file(to)?,
            at,
            len,
        }),
        (1, 1, 5) => Some(Front::Copy { at, len }),
        _ => None,
    }
}

// Whether so many bytes at a place pass the end.
fn passes(end: u64, at: u64, len: u64) -> bool
    ensures { IsTrue result ↔ (end < at + len) }
{
    at > end || end - at < len
}

/// The piece whose bytes stand at a place of the journal, which ends at `end`, if they are whole and end within the file.
pub(crate) fn given_part(
    end: u64,
    ends: &Sizes,
    from_at: u64,
    to: FileId,
    to_at: u64,
    len: u64,
) -> Option<Part>
    requires { from_at ≤ end }
    ensures found { IfSome result (λ part. (part ≡ given_part_of from_at to to_at len)
        × (from_at + len ≤ end) × (to_at + len ≤ size_in ends.now to)) }
    ensures sound { file_number to < 4 → IfSome result IsSoundPart }
    ensures none { IfNone result (from_at + len ≤ end → to_at + len ≤ size_in ends.now to → ⊥) }
{
    if end - from_at < len || passes(ends.get(to), to_at, len) {
        return None;
    }
    Some(Part {
        from: FileId::Jnl,
        from_at,
        to,
        to_at,
        len,
        behind: from_at + len,
    })
}

/// The copy that ends before a place of the journal, if it stays within the files.
pub(crate) fn copied_part(
    sizes: &Sizes,
    ends: &Sizes,
    behind: u64,
    from_at: u64,
    to_at: u64,
    len: u64,
) -> Option<Part>
    ensures found { IfSome result (λ part. (part ≡ copied_part_of behind from_at to_at len)
        × (from_at + len ≤ size_in sizes.now shadow) × (to_at + len ≤ size_in ends.now texts)) }
    ensures sound { IfSome result IsSoundPart }
    ensures none { IfNone result
        (from_at + len ≤ size_in sizes.now shadow → to_at + len ≤ size_in ends.now texts → ⊥) }
{
    if passes(sizes.get(FileId::Ndt), from_at, len) || passes(ends.get(FileId::Jdt), to_at, len) {
        return None;
    }
    Some(Part {
        from: FileId::Ndt,
        from_at,
        to: FileId::Jdt,
        to_at,
        len,
        behind,
    })
}
