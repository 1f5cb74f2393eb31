//! A message gets another subject and another text.
ghost use Rattle.std.specs.Prelude.{◌≡◌, ◌+◌, ◌-◌, ◌<◌, ◌≤◌, ◌++◌, ◌∷◌, [], IfOk, OnOk, List, length};
ghost use Rattle.jb_bytes.specs.declared.subfield.Subfield.{Subfield};
ghost use Rattle.jb_limits.specs.declared.limits.TheConstants.{HEADERS_CEILING, TEXTS_CEILING};
ghost use Rattle.jb_model.specs.Edit.{edit_refusal, edit_step, new_subject};
ghost use Rattle.jb_state.specs.Edited.{edited, edited_state, with_subject};
ghost use Rattle.jb_state.specs.Message.{header_length};
ghost use Rattle.jb_state.specs.Tight.{owned};
ghost use Rattle.jb_plain.specs.Changes.{with_subject_in_rest};
ghost use Rattle.jb_plain.specs.Seen.{seen_state};

use crate::held::PlainState;
use crate::message::{field, visible_at};
use crate::post::{files_full, long_part};
use crate::rule::{denied, edit_denied};
use jb_access::Action;
use jb_base::{
    AreaRules, Bytes, MOST_SUBFIELD_BYTES, OutOfMemory, Part, SUBJECT, Subfield, Subfields, User,
    first_part,
};
use jb_model::Reply;
use jb_state::{Message, Slot};
use jb_subfield::headed_length;
use std::alloc::Global;

/// What a user wrote in the place of a message's subject and text.
#[derive(Clone, Copy)]
pub(crate) struct PlainEdit<'a> {
    pub(crate) number: u32,
    pub(crate) subject: &'a [u8],
    pub(crate) text: &'a [u8],
}

/// Puts a subfield behind the others.
pub(crate) fn put_copy(
    alloc: Global,
    subfields: &mut Subfields,
    id: u16,
    hi: u16,
    bytes: &[u8],
) -> Result<(), OutOfMemory>
    ensures { OnOk result (subfields.new
        ≡ subfields.old ++ record { id = id; hi = hi; bytes = bytes.now } ∷ []) }
{
    let bytes = Bytes::copy(alloc, bytes)?;
    subfields.push(Subfield { id, hi, bytes })
}

/// Puts the next subfield behind the others, the first SUBJECT with this subject. Whether one was put is told, before
/// it by `named` and with it by the answer.
fn put_next(
    alloc: Global,
    made: &mut Subfields,
    part: Part<'_>,
    subject: &[u8],
    named: bool,
) -> Result<bool, OutOfMemory>
    ensures { IfOk result (λ later. (fields : List Subfield)
        → made.new ++ with_subject_in_rest later subject.now fields
        ≡ made.old ++ with_subject_in_rest named subject.now
        (record { id = part.entry.id; hi = part.entry.hi; bytes = part.entry.content.now } ∷ fields)) }
{
    if named {
        put_copy(alloc, made, part.id, part.hi, part.content)?;
        return Ok(true);
    }
    if part.id == SUBJECT {
        put_copy(alloc, made, part.id, part.hi, subject)?;
        return Ok(true);
    }
    put_copy(alloc, made, part.id, part.hi, part.content)?;
    Ok(false)
}

/// The subfields with this subject.
fn with_subject(
    alloc: Global,
    subfields: &Subfields,
    subject: &[u8],
) -> Result<Subfields, OutOfMemory>
    ensures { IfOk result (λ fields. fields ≡ with_subject subject.now subfields.now) }
{
    let mut made = Subfields::new(alloc);
    let mut rest = subfields.as_bytes();
    let mut named = false;
    while let Some(part) = first_part(rest) {
        named = put_next(alloc, &mut made, part, subject, named)?;
        rest = part.behind;
    }
    if named {
        return Ok(made);
    }
    put_copy(alloc, &mut made, SUBJECT, 0, subject)?;
    Ok(made)
}

/// The message with this subject and this text.
fn edited(
    alloc: Global,
    message: &Message,
    subject: &[u8],
    text: &[u8],
) -> Result<Message, OutOfMemory>
    ensures { IfOk result (λ made. owned made ≡ edited subject.now text.now (owned message.now)) }
{
    let subfields = with_subject(alloc, &message.subfields, subject)?;
    let text = Bytes::copy(alloc, text)?;
    Ok(Message {
        head: message.head,
        subfields,
        text,
    })
}

/// What an edit brings of a subject: nothing, where the message has it already.
fn new_subject<'a>(message: &Message, subject: &'a [u8]) -> &'a [u8]
    ensures { result.now ≡ new_subject subject.now (owned message.now) }
{
    if subject == field(&message.subfields, SUBJECT) {
        &[]
    } else {
        subject
    }
}

/// Why there is no room for the message as it is edited.
fn no_room(state: &PlainState, made: &Message) -> Option<Reply>
    ensures { result ≡ edit_refusal (seen_state state.now) (owned made.now) }
{
    let length = made.subfields.as_bytes().len() as u64;
    if length > u64::from(MOST_SUBFIELD_BYTES) {
        return Some(Reply::SubfieldsFull { length });
    }
    files_full(state, made)
}

/// Puts the message in the place of the one that the number names, behind all others in the files.
fn put_edited(state: &mut PlainState, number: u32, made: Message)
    requires low { state.old.base ≤ number }
    requires inside { number - state.old.base < length state.old.slots.items }
    requires headers { (seen_state state.old).headers_len + header_length (owned made) ≤ HEADERS_CEILING }
    requires texts { (seen_state state.old).texts_len + length made.text ≤ TEXTS_CEILING }
    ensures { seen_state state.new ≡ edited_state (seen_state state.old) number (owned made) }
{
    let headers = headed_length(&made.subfields);
    let texts = made.text.len() as u64;
    state.put_slot(number, Slot::Live(made));
    state.headers_len += headers;
    state.texts_len += texts;
    state.count();
}

/// A message is edited by its sender or the sysop.
pub(crate) fn edit(
    alloc: Global,
    rules: &AreaRules,
    state: &mut PlainState,
    user: &User,
    edit: PlainEdit<'_>,
) -> Result<Reply, OutOfMemory>
    ensures { IfOk result (λ reply. record { reply = reply; state = seen_state state.new }
        ≡ edit_step rules.now (seen_state state.old) user.now
        edit.entry.number edit.entry.subject.now edit.entry.text.now) }
{
    let number = edit.number;
    if let Some(rule) = denied(user, rules, Action::List) {
        return Ok(Reply::Denied { rule });
    }
    let Some(message) = visible_at(rules, user, state, number) else {
        return Ok(Reply::NoMessage { number });
    };
    if let Some(rule) = edit_denied(user, rules, message) {
        return Ok(Reply::Denied { rule });
    }
    if let Some(refusal) = long_part(new_subject(message, edit.subject), edit.text) {
        return Ok(refusal);
    }
    let made = edited(alloc, message, edit.subject, edit.text)?;
    if let Some(refusal) = no_room(state, &made) {
        return Ok(refusal);
    }
    put_edited(state, number, made);
    Ok(Reply::Edited { number })
}
