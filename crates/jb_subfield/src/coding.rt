//! Subfields as bytes, and the list that bytes are.
ghost use Rattle.std.specs.Prelude.{◌≡◌, ℕ, ◌≤◌, List, Ok, Err, MatchOption, length};
ghost use Rattle.jb_bytes.specs.Subfields.{AreSubfields, IsCutAt, IsSubfieldList};
ghost use Rattle.jb_bytes.specs.declared.subfield.Subfield.{Subfield};
ghost use Rattle.jb_subfield.specs.Answer.{ReadsSubfields, IsUnlessMemory};
ghost use Rattle.jb_subfield.specs.Laws.{HasOneListAtMost, ArePrefixFree};

use crate::SubfieldError;
use jb_bytes::{Subfields, first_part};
use std::alloc::Global;

/// The place of the first subfield in these bytes that is not whole; none where nothing but subfields stands in them. It
/// takes no memory.
pub fn cut_of(bytes: &[u8]) -> Option<u32>
    requires { length bytes.now ≤ 262_144 }
    ensures { MatchOption result (AreSubfields bytes.now) (IsCutAt bytes.now) }
{
    let mut rest = bytes;
    while !rest.is_empty() {
        let Some(part) = first_part(rest) else {
            return Some((bytes.len() - rest.len()) as u32);
        };
        rest = part.behind;
    }
    None
}

/// The subfields that stand in these bytes one after another. Nothing else may stand in them.
pub fn decode(alloc: Global, bytes: &[u8]) -> Result<Subfields, SubfieldError>
    requires { length bytes.now ≤ 262_144 }
    ensures cause { ReadsSubfields bytes.now result }

    // Each list and each place is answered.
    ensures found { (fields : List Subfield) → IsSubfieldList fields bytes.now
        → IsUnlessMemory result (Ok fields) }
    ensures cut { (at : ℕ) → IsCutAt bytes.now at → IsUnlessMemory result (Err (SubfieldError.Cut at)) }

    // Bytes have no two answers.
    ensures prefix_free { ArePrefixFree }
    ensures alone { HasOneListAtMost }
{
    read(alloc, bytes)
}

/// The subfields, where all are whole.
fn read(alloc: Global, bytes: &[u8]) -> Result<Subfields, SubfieldError>
    requires { length bytes.now ≤ 262_144 }
    ensures { ReadsSubfields bytes.now result }
{
    match cut_of(bytes) {
        Some(at) => Err(SubfieldError::Cut { at }),
        None => Ok(Subfields::copy(alloc, bytes)?),
    }
}
