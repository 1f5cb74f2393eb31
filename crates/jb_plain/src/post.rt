//! A message is posted.
ghost use Rattle.std.specs.Prelude.{◌≡◌, ◌+◌, ◌<◌, ◌≤◌, ◌++◌, ◌∷◌, [], IfOk, OnOk, Some, length, option_map};
ghost use Rattle.std.specs.Borrow.{Bor};
ghost use Rattle.jb_state.specs.Message.{header_length};
ghost use Rattle.jb_model.specs.Post.{answer_refusal, draft_refusal, files_refusal, id_crc, parts_refusal, plain_field, post_step, posted_message, room_refusal, fields_with};
ghost use Rattle.jb_state.specs.Posted.{posted_replyid, posted_state, with_first_reply, with_next_reply};
ghost use Rattle.jb_state.specs.State.{next_number};
ghost use Rattle.jb_state.specs.Tight.{owned};
ghost use Rattle.jb_plain.specs.Changes.{draft_of, renamed_area, spliced_area};
ghost use Rattle.jb_plain.specs.Seen.{seen_state};

use crate::edit::put_copy;
use crate::held::PlainState;
use crate::links::{last_reply, parent_with};
use crate::message::{message_at, visible_at};
use crate::rule::denied;
use jb_access::Action;
use jb_base::{
    AreaRules, Bytes, HEADERS_CEILING, LAST_POSTED_NUMBER, MOST_COPIED_MSGID_BYTES,
    MOST_NAME_BYTES, MOST_POSTED_TEXT_BYTES, MOST_SUBJECT_BYTES, MSGID, OutOfMemory, RECEIVER_NAME,
    REPLYID, SENDER_NAME, SUBJECT, Subfields, TEXTS_CEILING, User,
};
use jb_crc::jam_crc;
use jb_model::{Field, Reply, posted_attribute, posted_msgid};
use jb_state::{Head, Message, Slot};
use jb_subfield::headed_length;
use std::alloc::Global;

/// What a user wrote.
#[derive(Clone, Copy)]
pub(crate) struct PlainDraft<'a> {
    pub(crate) to: &'a [u8],
    pub(crate) subject: &'a [u8],
    pub(crate) text: &'a [u8],
    pub(crate) reply_to: u32,
    pub(crate) private: bool,
}

/// The refusal of a part that is too long.
fn too_long(field: Field, bytes: &[u8]) -> Option<Reply>
    ensures { result ≡ Some (Reply.TooLong field (length bytes.now)) }
{
    Some(Reply::TooLong {
        field,
        length: bytes.len() as u64,
    })
}

/// Why a subject and a text are refused: one is too long.
pub(crate) fn long_part(subject: &[u8], text: &[u8]) -> Option<Reply>
    ensures { result ≡ parts_refusal subject.now text.now }
{
    if subject.len() > MOST_SUBJECT_BYTES {
        too_long(Field::Subject, subject)
    } else if text.len() > MOST_POSTED_TEXT_BYTES {
        too_long(Field::Text, text)
    } else {
        None
    }
}

/// Why a draft is refused: a part of it is empty or too long.
fn unfit(draft: PlainDraft<'_>) -> Option<Reply>
    ensures { result ≡ draft_refusal (draft_of draft.entry) }
{
    if draft.to.is_empty() {
        Some(Reply::EmptyName { field: Field::To })
    } else if draft.to.len() > MOST_NAME_BYTES {
        too_long(Field::To, draft.to)
    } else {
        long_part(draft.subject, draft.text)
    }
}

/// Why a draft is refused: it answers a message that the user does not see.
fn unanswered(
    rules: &AreaRules,
    state: &PlainState,
    user: &User,
    draft: PlainDraft<'_>,
) -> Option<Reply>
    ensures { result ≡ answer_refusal rules.now (seen_state state.now) user.now (draft_of draft.entry) }
{
    if draft.reply_to == 0 {
        return None;
    }
    if visible_at(rules, user, state, draft.reply_to).is_none() {
        return Some(Reply::NoMessage {
            number: draft.reply_to,
        });
    }
    None
}

/// Why the files have no room for the message.
pub(crate) fn files_full(state: &PlainState, message: &Message) -> Option<Reply>
    ensures { result ≡ files_refusal (seen_state state.now) (owned message.now) }
{
    let headers = state
        .headers_len
        .saturating_add(headed_length(&message.subfields));
    let texts = state.texts_len.saturating_add(message.text.len() as u64);
    if headers > HEADERS_CEILING {
        Some(Reply::HeadersFull { length: headers })
    } else if texts > TEXTS_CEILING {
        Some(Reply::TextFull { length: texts })
    } else {
        None
    }
}

/// Why there is no room for the message.
fn no_room(rules: &AreaRules, state: &PlainState, message: &Message) -> Option<Reply>
    ensures { result ≡ room_refusal rules.now (seen_state state.now) (owned message.now) }
{
    let next = state.next();
    if next > LAST_POSTED_NUMBER {
        Some(Reply::NumbersSpent { next })
    } else if state.slots.len() >= rules.slots as usize {
        Some(Reply::SlotsFull { slots: rules.slots })
    } else {
        files_full(state, message)
    }
}

/// The REPLYID of an answer to a number: the MSGID that the message has there, where it is copied.
fn replyid_of(state: &PlainState, reply_to: u32) -> Option<&[u8]>
    ensures { option_map (λ (b : Bor _). b.now) result ≡ posted_replyid (seen_state state.now) reply_to }
{
    let answered = message_at(state, reply_to)?;
    let id = answered.subfields.first(MSGID)?;
    if id.len() <= MOST_COPIED_MSGID_BYTES {
        Some(id)
    } else {
        None
    }
}

/// Puts a subfield with HiID 0 behind the others.
fn put_field(
    alloc: Global,
    subfields: &mut Subfields,
    id: u16,
    bytes: &[u8],
) -> Result<(), OutOfMemory>
    ensures { OnOk result (subfields.new ≡ subfields.old ++ plain_field id bytes.now ∷ []) }
{
    put_copy(alloc, subfields, id, 0, bytes)
}

/// The subfields of the message that is posted.
fn subfields_of(
    alloc: Global,
    user: &User,
    draft: PlainDraft<'_>,
    msgid: &[u8],
    replyid: Option<&[u8]>,
) -> Result<Subfields, OutOfMemory>
    ensures { IfOk result (λ fields. fields ≡ fields_with user.now (draft_of draft.entry) msgid.now
        (option_map (λ (b : Bor _). b.now) replyid.entry)) }
{
    let mut subfields = Subfields::new(alloc);
    put_field(alloc, &mut subfields, SENDER_NAME, user.name.as_slice())?;
    put_field(alloc, &mut subfields, RECEIVER_NAME, draft.to)?;
    put_field(alloc, &mut subfields, MSGID, msgid)?;
    if let Some(replyid) = replyid {
        put_field(alloc, &mut subfields, REPLYID, replyid)?;
    }
    put_field(alloc, &mut subfields, SUBJECT, draft.subject)?;
    Ok(subfields)
}

/// The CRC of an id, all bits set where there is none.
fn crc_of_id(id: Option<&[u8]>) -> u32
    ensures { result ≡ id_crc (option_map (λ (b : Bor _). b.now) id.entry) }
{
    match id {
        Some(id) => jam_crc(id),
        None => u32::MAX,
    }
}

/// The message that is posted.
fn message_of(
    alloc: Global,
    rules: &AreaRules,
    state: &PlainState,
    user: &User,
    moment: u32,
    draft: PlainDraft<'_>,
) -> Result<Message, OutOfMemory>
    requires { next_number (seen_state state.now) ≤ LAST_POSTED_NUMBER }
    ensures { IfOk result (λ message. owned message
        ≡ posted_message rules.now (seen_state state.now) user.now moment (draft_of draft.entry)) }
{
    let number = state.next();
    let msgid = posted_msgid(alloc, rules, number)?;
    let replyid = replyid_of(state, draft.reply_to);
    let head = Head {
        reserved: 0,
        times_read: 0,
        msgid_crc: jam_crc(msgid.as_slice()),
        reply_crc: crc_of_id(replyid),
        reply_to: parent_with(&state.slots, state.base, number, replyid, draft.reply_to),
        reply_first: 0,
        reply_next: 0,
        written: moment,
        received: 0,
        processed: 0,
        attribute: posted_attribute(rules, draft.private),
        attribute2: 0,
        password: u32::MAX,
        cost: 0,
    };
    let subfields = subfields_of(alloc, user, draft, msgid.as_slice(), replyid)?;
    let text = Bytes::copy(alloc, draft.text)?;
    Ok(Message {
        head,
        subfields,
        text,
    })
}

/// Makes a number the first reply of a message.
fn name_first(state: &mut PlainState, named: u32, number: u32)
    ensures { seen_state state.new ≡ renamed_area (seen_state state.old) named (with_first_reply number) }
{
    if let Some(message) = message_at(state, named) {
        let head = Head {
            reply_first: number,
            ..message.head
        };
        state.put_head(named, head);
    }
}

/// Makes a number the next reply behind a message.
fn name_next(state: &mut PlainState, named: u32, number: u32)
    ensures { seen_state state.new ≡ renamed_area (seen_state state.old) named (with_next_reply number) }
{
    if let Some(message) = message_at(state, named) {
        let head = Head {
            reply_next: number,
            ..message.head
        };
        state.put_head(named, head);
    }
}

/// Lets the neighbour of a new reply to this parent name it: the parent where it has no live reply, else its last reply.
fn splice(state: &mut PlainState, parent: u32, number: u32)
    ensures { seen_state state.new ≡ spliced_area (seen_state state.old) parent number }
{
    if parent == 0 {
        return;
    }
    let last = last_reply(&state.slots, state.base, parent);
    if last == 0 {
        name_first(state, parent, number);
    } else {
        name_next(state, last, number);
    }
}

/// Puts the message behind the others.
fn append(state: &mut PlainState, message: Message) -> Result<(), OutOfMemory>
    requires numbers { next_number (seen_state state.old) ≤ LAST_POSTED_NUMBER }
    requires headers { (seen_state state.old).headers_len + header_length (owned message) ≤ HEADERS_CEILING }
    requires texts { (seen_state state.old).texts_len + length message.text ≤ TEXTS_CEILING }
    ensures { OnOk result (seen_state state.new ≡ posted_state (seen_state state.old) (owned message)) }
{
    let number = state.next();
    let headers = headed_length(&message.subfields);
    let texts = message.text.len() as u64;
    splice(state, message.head.reply_to, number);
    state.slots.push(Slot::Live(message))?;
    state.headers_len += headers;
    state.texts_len += texts;
    state.count();
    Ok(())
}

/// A message is posted.
pub(crate) fn post(
    alloc: Global,
    rules: &AreaRules,
    state: &mut PlainState,
    user: &User,
    moment: u32,
    draft: PlainDraft<'_>,
) -> Result<Reply, OutOfMemory>
    ensures { IfOk result (λ reply. record { reply = reply; state = seen_state state.new }
        ≡ post_step rules.now (seen_state state.old) user.now moment (draft_of draft.entry)) }
{
    if let Some(rule) = denied(user, rules, Action::Post) {
        return Ok(Reply::Denied { rule });
    }
    if let Some(refusal) = unfit(draft) {
        return Ok(refusal);
    }
    if let Some(refusal) = unanswered(rules, state, user, draft) {
        return Ok(refusal);
    }
    let number = state.next();
    if number > LAST_POSTED_NUMBER {
        return Ok(Reply::NumbersSpent { next: number });
    }
    let message = message_of(alloc, rules, state, user, moment, draft)?;
    if let Some(refusal) = no_room(rules, state, &message) {
        return Ok(refusal);
    }
    append(state, message)?;
    Ok(Reply::Posted { number })
}
