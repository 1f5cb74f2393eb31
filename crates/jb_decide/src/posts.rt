//! A message is posted.
ghost use Rattle.std.specs.Prelude.{◌≡◌, ◌⊎◌, ◌+◌, ◌≤◌, IfErr, IfOk, length, None, Some, option_map};
ghost use Rattle.std.specs.Borrow.{Bor};
ghost use Rattle.jb_bytes.specs.Subfields.{subfield_bytes};
ghost use Rattle.jb_limits.specs.declared.limits.TheConstants.{MOST_ADDRESS_BYTES, MOST_NAME_BYTES, MOST_POSTED_TEXT_BYTES};
ghost use Rattle.jb_state.specs.LiveSlots.{IsLive};
ghost use Rattle.jb_model.specs.Post.{id_crc, head_with};
ghost use Rattle.jb_state.specs.Sound.{IsSound};
ghost use Rattle.jb_link.specs.Index.{IsIndexOf};
ghost use Rattle.jb_decide.specs.Draft.{draft_of, new_message, next_of, post_of};
ghost use Rattle.jb_decide.specs.Room.{file_refusal, new_refusal, number_refusal, unseen_refusal};
ghost use Rattle.jb_decide.specs.StepOf.{IsStepOf};

use crate::LentDraft;
use crate::denial::denied;
use crate::drafts::unfit;
use crate::fields::subfields_of;
use crate::found::{next_number, seen_at};
use crate::neighbours::neighbour_of;
use crate::outcome::Outcome;
use jb_access::Action;
use jb_base::{
    AreaRules, HEADERS_CEILING, LAST_POSTED_NUMBER, OutOfMemory, Subfields, TEXTS_CEILING, User,
};
use jb_crc::jam_crc;
use jb_link::{Replies, copied_msgid};
use jb_model::{Reply, posted_attribute, posted_msgid};
use jb_state::{Change, Head, Loaded, LoadedMessage};
use jb_subfield::headed_length;
use std::alloc::Global;

/// Why a draft is refused: it answers a message that the user does not see.
fn unseen(loaded: &Loaded, rules: &AreaRules, user: &User, draft: LentDraft<'_>) -> Option<Reply>
    ensures { result ≡ unseen_refusal rules.now loaded.now user.now (draft_of draft.entry) }
{
    if draft.reply_to == 0 {
        return None;
    }
    if seen_at(rules, user, loaded, draft.reply_to).is_none() {
        return Some(Reply::NoMessage {
            number: draft.reply_to,
        });
    }
    None
}

/// Why there is no further message: no number is left, or no slot.
fn no_number(loaded: &Loaded, rules: &AreaRules) -> Option<Reply>
    requires { loaded.now.base + length loaded.now.slots ≤ 4_294_967_295 }
    ensures { result ≡ number_refusal rules.now loaded.now }
{
    let next = next_number(loaded);
    if next > LAST_POSTED_NUMBER {
        Some(Reply::NumbersSpent { next })
    } else if loaded.slots.as_slice().len() >= rules.slots as usize {
        Some(Reply::SlotsFull { slots: rules.slots })
    } else {
        None
    }
}

/// Why the files have no room for a message of these subfields and this text.
pub(crate) fn no_room(loaded: &Loaded, subfields: &Subfields, text: &[u8]) -> Option<Reply>
    ensures { result ≡ file_refusal loaded.now (76 + length (subfield_bytes subfields.now))
        (length text.now) }
{
    let headers = loaded.headers_len.saturating_add(headed_length(subfields));
    let texts = loaded.texts_len.saturating_add(text.len() as u64);
    if headers > HEADERS_CEILING {
        Some(Reply::HeadersFull { length: headers })
    } else if texts > TEXTS_CEILING {
        Some(Reply::TextFull { length: texts })
    } else {
        None
    }
}

/// The CRC of an id, all bits set where there is none.
fn crc_of_id(id: Option<&[u8]>) -> u32
    ensures { result ≡ id_crc (option_map (λ (b : Bor _). b.now) id.entry) }
{
    match id {
        Some(id) => jam_crc(id),
        None => u32::MAX,
    }
}

/// The header's fields of a message with these ids and this parent.
fn head_of(
    rules: &AreaRules,
    moment: u32,
    draft: LentDraft<'_>,
    msgid: &[u8],
    replyid: Option<&[u8]>,
    parent: u32,
) -> Head
    ensures { result ≡ head_with rules.now moment (draft_of draft.entry) msgid.now
        (option_map (λ (b : Bor _). b.now) replyid.entry) parent }
{
    Head {
        reserved: 0,
        times_read: 0,
        msgid_crc: jam_crc(msgid),
        reply_crc: crc_of_id(replyid),
        reply_to: parent,
        reply_first: 0,
        reply_next: 0,
        written: moment,
        received: 0,
        processed: 0,
        attribute: posted_attribute(rules, draft.private),
        attribute2: 0,
        password: u32::MAX,
        cost: 0,
    }
}

/// The new message, or why the files have no room for it.
fn message_of(
    alloc: Global,
    loaded: &Loaded,
    replies: &Replies,
    rules: &AreaRules,
    user: &User,
    moment: u32,
    draft: LentDraft<'_>,
) -> Result<Result<LoadedMessage, Reply>, OutOfMemory>
    requires index { IsIndexOf replies.now loaded.now }
    requires number { next_of loaded.now ≤ LAST_POSTED_NUMBER }
    requires text { length draft.text.now ≤ MOST_POSTED_TEXT_BYTES }
    ensures full { IfOk result (λ made. IfErr made (λ reply.
        new_refusal rules.now loaded.now user.now (draft_of draft.entry) ≡ Some reply)) }
    ensures room { IfOk result (λ made. IfOk made (λ message.
        new_refusal rules.now loaded.now user.now (draft_of draft.entry) ≡ None)) }
    ensures made { IfOk result (λ made. IfOk made (λ message.
        message ≡ new_message rules.now loaded.now user.now moment (draft_of draft.entry))) }
    ensures live { IfOk result (λ made. IfOk made (λ message. (message.head.reply_to ≡ 0)
        ⊎ IsLive loaded.now message.head.reply_to)) }
{
    let number = next_number(loaded);
    let msgid = posted_msgid(alloc, rules, number)?;
    let replyid = copied_msgid(loaded, draft.reply_to);
    let subfields = subfields_of(alloc, user, draft, msgid.as_slice(), replyid)?;
    if let Some(reply) = no_room(loaded, &subfields, draft.text) {
        return Ok(Err(reply));
    }
    let above = replies.parent(loaded, number, replyid, draft.reply_to);
    Ok(Ok(LoadedMessage {
        owner: jam_crc(draft.to),
        head: head_of(rules, moment, draft, msgid.as_slice(), replyid, above),
        subfields,
        header_at: loaded.headers_len as u32,
        text_at: loaded.texts_len as u32,
        text_len: draft.text.len() as u32,
    }))
}

/// What a post of this draft does at a moment, in seconds since 1970: a message stands behind the others, its header and its
/// text at the ends of their files, and its neighbour's header names it. The parent and the neighbour are found by the index of
/// the area's replies, at four searches of it at most.
pub(crate) fn post(
    alloc: Global,
    loaded: &Loaded,
    replies: &Replies,
    rules: &AreaRules,
    user: &User,
    moment: u32,
    draft: LentDraft<'_>,
) -> Result<Outcome, OutOfMemory>
    requires index { IsIndexOf replies.now loaded.now }
    requires sound { IsSound rules.now.slots loaded.now }
    requires name { length user.now.name ≤ MOST_NAME_BYTES }
    requires address { length rules.now.address ≤ MOST_ADDRESS_BYTES }
    ensures { IfOk result (λ outcome. IsStepOf rules.now loaded.now user.now moment
        (post_of (draft_of draft.entry)) (λ texts. outcome.reply) outcome.change) }
{
    if let Some(rule) = denied(user, rules, Action::Post) {
        return Ok(Outcome::unchanged(Reply::Denied { rule }));
    }
    if let Some(reply) = unfit(draft) {
        return Ok(Outcome::unchanged(reply));
    }
    if let Some(reply) = unseen(loaded, rules, user, draft) {
        return Ok(Outcome::unchanged(reply));
    }
    if let Some(reply) = no_number(loaded, rules) {
        return Ok(Outcome::unchanged(reply));
    }
    let message = match message_of(alloc, loaded, replies, rules, user, moment, draft)? {
        Ok(message) => message,
        Err(reply) => return Ok(Outcome::unchanged(reply)),
    };
    let number = next_number(loaded);
    let neighbour = neighbour_of(loaded, replies, message.head.reply_to, number);
    Ok(Outcome {
        reply: Reply::Posted { number },
        change: Change::Posted { message, neighbour },
    })
}
