//! The fields of a record, from their bytes.
ghost use Rattle.std.specs.Prelude.{◌≡◌, ◌+◌, ◌^◌, ◌<◌, ◌≤◌, IfSome, IfNone, IsTrue, ◌↔◌, length, slice_index, ℕ};
ghost use Rattle.jb_bytes.specs.Number.{number_bytes};
ghost use Rattle.jb_disk.specs.declared.piece.Length.{Length};
ghost use Rattle.jb_disk.specs.Files.{file_number};
ghost use Rattle.jb_redo.specs.Record.{width_of, length_bytes};
ghost use Rattle.jb_redo.specs.Rules.{IsLegalLength};

use crate::layout::most;
use jb_disk::{FileId, Length, Version};

// Eight bytes that begin with these, and then are zero.
fn padded(bytes: &[u8]) -> [u8; 8]
    requires { length bytes.now ≤ 8 }
    ensures { (k : ℕ) → k < 8 → slice_index result k ≡ slice_index bytes.now k }
{
    let mut eight = [0; 8];
    eight[..bytes.len()].copy_from_slice(bytes);
    eight
}

/// The number that these bytes make, at most eight of them, the lowest first.
pub(crate) fn decode_number(bytes: &[u8]) -> u64
    requires { length bytes.now ≤ 8 }
    ensures spelled { bytes.now ≡ number_bytes (length bytes.now) result }
    ensures fits { result < 256 ^ length bytes.now }
{
    u64::from_le_bytes(padded(bytes))
}

/// Whether two marks are the same four bytes.
pub(crate) fn is_same(bytes: &[u8; 4], mark: &[u8; 4]) -> bool
    ensures { IsTrue result ↔ (bytes.now ≡ mark.now) }
{
    bytes == mark
}

/// The file of the base that has this number.
pub(crate) fn base_file(number: u8) -> Option<FileId>
    ensures found { IfSome result (λ file. (file_number file ≡ number) × (number < 4)) }
    ensures none { IfNone result (4 ≤ number) }
{
    match number {
        0 => Some(FileId::Jhr),
        1 => Some(FileId::Jdt),
        2 => Some(FileId::Jdx),
        3 => Some(FileId::Jlr),
        _ => None,
    }
}

/// The new length that has these bytes, if there is one for a file whose number is at least `least`.
pub(crate) fn decode_length(version: Version, bytes: &[u8], least: u8) -> Option<Length>
    requires { length bytes.now ≡ 4 + width_of version }
    ensures found { IfSome result (λ entry. (bytes.now ≡ length_bytes version entry)
        × IsLegalLength version entry × (least ≤ file_number entry.file)) }
    ensures none { IfNone result ((entry : Length) → IsLegalLength version entry
        → least ≤ file_number entry.file → bytes.now ≡ length_bytes version entry → ⊥) }
{
    let [number, 0, 0, 0, len @ ..] = bytes else {
        return None;
    };
    let file = base_file(*number)?;
    let len = decode_number(len);
    if *number < least || len > most(version, file) {
        return None;
    }
    Some(Length { file, len })
}
