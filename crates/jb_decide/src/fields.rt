//! The subfields of a new message.
ghost use Rattle.std.specs.Prelude.{◌≡◌, ◌++◌, ◌∷◌, [], IfOk, OnOk, option_map};
ghost use Rattle.std.specs.Borrow.{Bor};
ghost use Rattle.jb_model.specs.Post.{plain_field, fields_with};
ghost use Rattle.jb_decide.specs.Draft.{draft_of};

use crate::LentDraft;
use jb_base::{
    Bytes, MSGID, OutOfMemory, RECEIVER_NAME, REPLYID, SENDER_NAME, SUBJECT, Subfield, Subfields,
    User,
};
use std::alloc::Global;

/// Puts a subfield behind the others.
pub(crate) fn put_copy(
    alloc: Global,
    subfields: &mut Subfields,
    id: u16,
    hi: u16,
    bytes: &[u8],
) -> Result<(), OutOfMemory>
    ensures { OnOk result (subfields.new
        ≡ subfields.old ++ record { id = id; hi = hi; bytes = bytes.now } ∷ []) }
{
    let bytes = Bytes::copy(alloc, bytes)?;
    subfields.push(Subfield { id, hi, bytes })
}

/// Puts a subfield with HiID 0 behind the others.
fn put_field(
    alloc: Global,
    subfields: &mut Subfields,
    id: u16,
    bytes: &[u8],
) -> Result<(), OutOfMemory>
    ensures { OnOk result (subfields.new ≡ subfields.old ++ plain_field id bytes.now ∷ []) }
{
    put_copy(alloc, subfields, id, 0, bytes)
}

/// The subfields of the message that is posted.
pub(crate) fn subfields_of(
    alloc: Global,
    user: &User,
    draft: LentDraft<'_>,
    msgid: &[u8],
    replyid: Option<&[u8]>,
) -> Result<Subfields, OutOfMemory>
    ensures { IfOk result (λ fields. fields ≡ fields_with user.now (draft_of draft.entry) msgid.now
        (option_map (λ (b : Bor _). b.now) replyid.entry)) }
{
    let mut subfields = Subfields::new(alloc);
    put_field(alloc, &mut subfields, SENDER_NAME, user.name.as_slice())?;
    put_field(alloc, &mut subfields, RECEIVER_NAME, draft.to)?;
    put_field(alloc, &mut subfields, MSGID, msgid)?;
    if let Some(replyid) = replyid {
        put_field(alloc, &mut subfields, REPLYID, replyid)?;
    }
    put_field(alloc, &mut subfields, SUBJECT, draft.subject)?;
    Ok(subfields)
}
