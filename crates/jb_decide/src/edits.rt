//! A message gets another subject and another text.
ghost use Rattle.std.specs.Prelude.{◌≡◌, ◌≤◌, ℕ, [], IfErr, IfOk, length, None, Some};
ghost use Rattle.jb_limits.specs.declared.limits.TheConstants.{MOST_POSTED_TEXT_BYTES};
ghost use Rattle.jb_model.specs.Edit.{new_subject};
ghost use Rattle.jb_state.specs.Edited.{with_subject};
ghost use Rattle.jb_state.specs.Sound.{IsSound};
ghost use Rattle.jb_state.specs.State.{with_text};
ghost use Rattle.jb_decide.specs.Draft.{edit_of, message_anew};
ghost use Rattle.jb_decide.specs.Room.{anew_refusal};
ghost use Rattle.jb_decide.specs.StepOf.{IsStepOf};

use crate::LentEdit;
use crate::denial::{denied, edit_denied, field};
use crate::drafts::long_part;
use crate::found::seen_at;
use crate::outcome::Outcome;
use crate::posts::no_room;
use crate::subjects::with_subject;
use jb_access::Action;
use jb_base::{AreaRules, MOST_SUBFIELD_BYTES, OutOfMemory, SUBJECT, Subfields, User};
use jb_model::Reply;
use jb_state::{Change, Loaded, LoadedMessage};
use std::alloc::Global;

/// What an edit brings of a subject: nothing, where the message has it already.
fn new_subject<'a>(message: &LoadedMessage, subject: &'a [u8]) -> &'a [u8]
    ensures { result.now ≡ new_subject subject.now (with_text [] message.now) }
{
    if subject == field(&message.subfields, SUBJECT) {
        &[]
    } else {
        subject
    }
}

/// Why there is no room for these subfields, which are those of an edited message, and for this text.
fn no_room_anew(loaded: &Loaded, subfields: &Subfields, text: &[u8]) -> Option<Reply>
    ensures { result ≡ anew_refusal loaded.now subfields.now (length text.now) }
{
    let length = subfields.as_bytes().len() as u64;
    if length > u64::from(MOST_SUBFIELD_BYTES) {
        return Some(Reply::SubfieldsFull { length });
    }
    no_room(loaded, subfields, text)
}

/// The message as it is edited, or why there is no room for it.
fn message_of(
    alloc: Global,
    loaded: &Loaded,
    message: &LoadedMessage,
    edit: LentEdit<'_>,
) -> Result<Result<LoadedMessage, Reply>, OutOfMemory>
    requires text { length edit.text.now ≤ MOST_POSTED_TEXT_BYTES }
    ensures full { IfOk result (λ made. IfErr made (λ reply.
        anew_refusal loaded.now (with_subject edit.entry.subject.now message.now.subfields)
        (length edit.entry.text.now) ≡ Some reply)) }
    ensures room { IfOk result (λ made. IfOk made (λ anew.
        anew_refusal loaded.now (with_subject edit.entry.subject.now message.now.subfields)
        (length edit.entry.text.now) ≡ None)) }
    ensures made { IfOk result (λ made. IfOk made (λ anew.
        anew ≡ message_anew loaded.now message.now edit.entry.subject.now edit.entry.text.now)) }
{
    let subfields = with_subject(alloc, &message.subfields, edit.subject)?;
    if let Some(reply) = no_room_anew(loaded, &subfields, edit.text) {
        return Ok(Err(reply));
    }
    Ok(Ok(LoadedMessage {
        owner: message.owner,
        head: message.head,
        subfields,
        header_at: loaded.headers_len as u32,
        text_at: loaded.texts_len as u32,
        text_len: edit.text.len() as u32,
    }))
}

/// What an edit does: the message has another subject and another text from now on, and its header and its text stand at the ends of
/// their files.
pub(crate) fn edit(
    alloc: Global,
    loaded: &Loaded,
    rules: &AreaRules,
    user: &User,
    edit: LentEdit<'_>,
) -> Result<Outcome, OutOfMemory>
    requires sound { IsSound rules.now.slots loaded.now }
    ensures { IfOk result (λ outcome. (moment : ℕ) → IsStepOf rules.now loaded.now user.now moment
        (edit_of edit.entry) (λ texts. outcome.reply) outcome.change) }
{
    let number = edit.number;
    if let Some(rule) = denied(user, rules, Action::List) {
        return Ok(Outcome::unchanged(Reply::Denied { rule }));
    }
    let Some(found) = seen_at(rules, user, loaded, number) else {
        return Ok(Outcome::unchanged(Reply::NoMessage { number }));
    };
    if let Some(rule) = edit_denied(user, rules, found.message) {
        return Ok(Outcome::unchanged(Reply::Denied { rule }));
    }
    if let Some(reply) = long_part(new_subject(found.message, edit.subject), edit.text) {
        return Ok(Outcome::unchanged(reply));
    }
    let message = match message_of(alloc, loaded, found.message, edit)? {
        Ok(message) => message,
        Err(reply) => return Ok(Outcome::unchanged(reply)),
    };
    Ok(Outcome {
        reply: Reply::Edited { number },
        change: Change::Edited {
            place: found.place,
            message,
        },
    })
}
