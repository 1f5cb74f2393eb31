//! What a change of an area makes of its index.
ghost use Rattle.std.specs.Prelude.{◌≡◌, ◌+◌, ◌≤◌, [], ◌∷◌, IfOk, length};
ghost use Rattle.jb_bytes.specs.Subfields.{subfield_bytes};
ghost use Rattle.jb_limits.specs.declared.limits.TheConstants.{MOST_SLOTS, MOST_SUBFIELD_BYTES};
ghost use Rattle.jb_index.specs.Change.{Follows};
ghost use Rattle.jb_index.specs.Index.{summary_with};
ghost use Rattle.jb_index.specs.declared.op.OpEdit.TheVariants.{Attribute, Put, Subject};
ghost use Rattle.jb_link.specs.Index.{IsIndexOf};
ghost use Rattle.jb_state.specs.Change.{Fits};
ghost use Rattle.jb_state.specs.Message.{subject_of};
ghost use Rattle.jb_state.specs.Short.{short_of};
ghost use Rattle.jb_state.specs.Sound.{IsSound};

use crate::kills::killed;
use crate::making::summary;
use crate::{Op, OpEdit};
use jb_base::OutOfMemory;
use jb_link::Replies;
use jb_state::{Change, HeadAt, Loaded, LoadedMessage};
use std::alloc::Global;

/// The number of the slot at a place.
fn number_at(loaded: &Loaded, place: usize) -> u32
    requires { loaded.now.base + place ≤ 4_294_967_295 }
    ensures { result ≡ loaded.now.base + place }
{
    loaded.base + place as u32
}

/// The edit of a post: the message has the next number, and the parent that its header names.
fn posted(loaded: &Loaded, message: &LoadedMessage) -> OpEdit
    requires numbers { loaded.now.base + length loaded.now.slots ≤ 4_294_967_295 }
    requires few_bytes { length (subfield_bytes message.now.subfields) ≤ MOST_SUBFIELD_BYTES }
    ensures { result ≡ Put (summary_with
        (loaded.now.base + length loaded.now.slots) message.now.head message.now.subfields
        message.now.head.reply_to) }
{
    let next = number_at(loaded, loaded.slots.as_slice().len());
    OpEdit::Put(summary(next, message, message.head.reply_to))
}

/// The edit of a reading.
fn headed(loaded: &Loaded, at: &HeadAt) -> OpEdit
    requires { loaded.now.base + at.now.place ≤ 4_294_967_295 }
    ensures { result ≡ Attribute (loaded.now.base + at.now.place) at.now.head.attribute }
{
    OpEdit::Attribute {
        number: number_at(loaded, at.place),
        attribute: at.head.attribute,
    }
}

/// The edit of an edited message: of its subject is kept what a summary keeps.
fn edited(loaded: &Loaded, place: usize, message: &LoadedMessage) -> OpEdit
    requires number { loaded.now.base + place ≤ 4_294_967_295 }
    requires few_bytes { length (subfield_bytes message.now.subfields) ≤ MOST_SUBFIELD_BYTES }
    ensures { result ≡ Subject (loaded.now.base + place) (short_of 72 (subject_of message.now.subfields)) }
{
    let number = number_at(loaded, place);
    let line = summary(number, message, message.head.reply_to);
    OpEdit::Subject {
        number,
        subject: line.subject,
    }
}

/// This edit alone.
fn one(alloc: Global, edit: OpEdit) -> Result<Op, OutOfMemory>
    ensures { IfOk result (λ op. op ≡ edit ∷ []) }
{
    let mut op = Op::new(alloc);
    op.push(edit)?;
    Ok(op)
}

impl Op {
    /// What a change makes of the index of its area, which is loaded as it was before it, with the index of its replies. A reading
    /// changes the attributes of its message, an edit the subject, since the links stay as they are, a relink and a refusal nothing. A
    /// kill makes six searches among the replies and a step for each answer to the message, any other change none.
    pub fn of(
        alloc: Global,
        loaded: &Loaded,
        replies: &Replies,
        change: &Change,
    ) -> Result<Op, OutOfMemory>
        requires index { IsIndexOf replies.now loaded.now }
        requires sound { IsSound MOST_SLOTS loaded.now }
        requires fits { Fits MOST_SLOTS change.now loaded.now }
        ensures { IfOk result (λ op. Follows change.now loaded.now op) }
    {
        match change {
            Change::Posted { message, .. } => one(alloc, posted(loaded, message)),
            Change::Headed { at } => one(alloc, headed(loaded, at)),
            Change::Edited { place, message } => one(alloc, edited(loaded, *place, message)),
            Change::Killed { place } => killed(alloc, loaded, replies, number_at(loaded, *place)),
            Change::Marked { mark, .. } => one(alloc, OpEdit::Mark(*mark)),
            Change::Packed { base, .. } => one(alloc, OpEdit::Base { base: *base }),
            Change::Nothing | Change::Relinked { .. } => Ok(Op::new(alloc)),
        }
    }
}
