//! The subfields of a message with another subject.
ghost use Rattle.std.specs.Prelude.{◌≡◌, ◌++◌, ◌∷◌, IfOk, List};
ghost use Rattle.jb_bytes.specs.declared.subfield.Subfield.{Subfield};
ghost use Rattle.jb_state.specs.Edited.{with_subject};
ghost use Rattle.jb_decide.specs.Draft.{with_subject_in_rest};

use crate::fields::put_copy;
use jb_base::{OutOfMemory, Part, SUBJECT, Subfields, first_part};
use std::alloc::Global;

/// Puts the next subfield behind the others, the first SUBJECT with this subject. Whether one was put is told, before
/// it by `named` and with it by the answer.
fn put_next(
    alloc: Global,
    made: &mut Subfields,
    part: Part<'_>,
    subject: &[u8],
    named: bool,
) -> Result<bool, OutOfMemory>
    ensures { IfOk result (λ later. (fields : List Subfield)
        → made.new ++ with_subject_in_rest later subject.now fields
        ≡ made.old ++ with_subject_in_rest named subject.now
        (record { id = part.entry.id; hi = part.entry.hi; bytes = part.entry.content.now } ∷ fields)) }
{
    if named {
        put_copy(alloc, made, part.id, part.hi, part.content)?;
        return Ok(true);
    }
    if part.id == SUBJECT {
        put_copy(alloc, made, part.id, part.hi, subject)?;
        return Ok(true);
    }
    put_copy(alloc, made, part.id, part.hi, part.content)?;
    Ok(false)
}

/// The subfields with this subject.
pub(crate) fn with_subject(
    alloc: Global,
    subfields: &Subfields,
    subject: &[u8],
) -> Result<Subfields, OutOfMemory>
    ensures { IfOk result (λ fields. fields ≡ with_subject subject.now subfields.now) }
{
    let mut made = Subfields::new(alloc);
    let mut rest = subfields.as_bytes();
    let mut named = false;
    while let Some(part) = first_part(rest) {
        named = put_next(alloc, &mut made, part, subject, named)?;
        rest = part.behind;
    }
    if named {
        return Ok(made);
    }
    put_copy(alloc, &mut made, SUBJECT, 0, subject)?;
    Ok(made)
}
