//! What a message says of itself, and who sees it.
ghost use Rattle.std.specs.Prelude.{◌≡◌, IfOk, IfSome, option_map, unwrap_or, []};
ghost use Rattle.std.specs.Borrow.{Bor};
ghost use Rattle.jb_access.specs.Parties.{envelope};
ghost use Rattle.jb_bytes.specs.Subfields.{first_of, sender_of, receiver_of};
ghost use Rattle.jb_state.specs.Live.{message_at};
ghost use Rattle.jb_state.specs.Message.{envelope_of};
ghost use Rattle.jb_model.specs.Letter.{letter_of};
ghost use Rattle.jb_state.specs.Tight.{owned};
ghost use Rattle.jb_state.specs.Visible.{is_shown, visible_at};
ghost use Rattle.jb_plain.specs.Seen.{HasAt, seen_state, with_head};

use crate::held::PlainState;
use jb_access::{Action, Parties, allowed};
use jb_base::{
    AreaRules, Bytes, MSGID, Name, OutOfMemory, RECEIVER_NAME, REPLYID, SENDER_NAME, SUBJECT,
    Subfields, User,
};
use jb_model::Letter;
use jb_state::{Head, Message, Slot};
use std::alloc::Global;

/// The data of the first subfield of a kind, empty where there is none.
pub(crate) fn field(subfields: &Subfields, id: u16) -> &[u8]
    ensures { result.now ≡ unwrap_or (first_of id subfields.now) [] }
{
    match subfields.first(id) {
        Some(bytes) => bytes,
        None => &[],
    }
}

/// The parties of a message, and its attributes.
pub(crate) fn parties(message: &Message) -> Parties<'_>
    ensures { envelope result ≡ envelope_of (owned message.now) }
{
    Parties {
        from: field(&message.subfields, SENDER_NAME),
        to: field(&message.subfields, RECEIVER_NAME),
        attribute: message.head.attribute,
    }
}

/// Whether the user sees the live message.
pub(crate) fn shown(rules: &AreaRules, user: &User, message: &Message) -> bool
    ensures { result ≡ is_shown rules.now user.now (owned message.now) }
{
    allowed(user, rules, Action::List, Some(parties(message))).is_ok()
}

/// The live message that a number names.
pub(crate) fn message_at(state: &PlainState, number: u32) -> Option<&Message>
    ensures named { option_map (λ (m : Bor _). owned m.now) result ≡ message_at (seen_state state.now) number }
    ensures placed { IfSome result (λ m. HasAt state.now number m.now) }
{
    if number < state.base {
        return None;
    }
    match state.slots.get((number - state.base) as usize) {
        Some(Slot::Live(message)) => Some(message),
        _ => None,
    }
}

/// The live message that a number names, where the user sees it.
pub(crate) fn visible_at<'a>(
    rules: &AreaRules,
    user: &User,
    state: &'a PlainState,
    number: u32,
) -> Option<&'a Message>
    ensures named { option_map (λ (m : Bor _). owned m.now) result
        ≡ visible_at rules.now user.now (seen_state state.now) number }
    ensures placed { IfSome result (λ m. HasAt state.now number m.now) }
{
    let message = message_at(state, number)?;
    if shown(rules, user, message) {
        Some(message)
    } else {
        None
    }
}

/// Copies of the sender's name and of the receiver's.
fn names(alloc: Global, subfields: &Subfields) -> Result<(Name, Name), OutOfMemory>
    ensures { IfOk result (λ names. names ≡ (sender_of subfields.now, receiver_of subfields.now)) }
{
    let from = Name::copy(alloc, field(subfields, SENDER_NAME))?;
    let to = Name::copy(alloc, field(subfields, RECEIVER_NAME))?;
    Ok((from, to))
}

/// Copies of the data of the first subfields of two kinds, empty where there is none.
fn copies(
    alloc: Global,
    subfields: &Subfields,
    first: u16,
    second: u16,
) -> Result<(Bytes, Bytes), OutOfMemory>
    ensures { IfOk result (λ copies. copies ≡ (
      unwrap_or
          (first_of first subfields.now) [],
      unwrap_or (first_of second subfields.now) [],
    )) }
{
    let one = Bytes::copy(alloc, field(subfields, first))?;
    let other = Bytes::copy(alloc, field(subfields, second))?;
    Ok((one, other))
}

/// The message as it is shown, with these fields in its header.
pub(crate) fn letter(
    alloc: Global,
    number: u32,
    head: Head,
    message: &Message,
) -> Result<Letter, OutOfMemory>
    ensures { IfOk result (λ letter. letter ≡ letter_of number (with_head head (owned message.now))) }
{
    let (from, to) = names(alloc, &message.subfields)?;
    let (msgid, reply) = copies(alloc, &message.subfields, MSGID, REPLYID)?;
    let subject = Bytes::copy(alloc, field(&message.subfields, SUBJECT))?;
    let text = Bytes::copy(alloc, message.text.as_slice())?;
    Ok(Letter {
        number,
        from,
        to,
        subject,
        msgid,
        reply,
        written: head.written,
        attribute: head.attribute,
        reply_to: head.reply_to,
        reply_first: head.reply_first,
        reply_next: head.reply_next,
        text,
    })
}
