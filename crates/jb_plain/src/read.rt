//! A message is read, or looked at.
ghost use Rattle.std.specs.Prelude.{◌≡◌, IfOk};
ghost use Rattle.jb_model.specs.Read.{peek_step, read_message, read_step};
ghost use Rattle.jb_state.specs.Tight.{owned};
ghost use Rattle.jb_plain.specs.Seen.{seen_state, with_head};

use crate::held::PlainState;
use crate::message::{field, letter, visible_at};
use crate::rule::denied;
use jb_access::Action;
use jb_base::{AreaRules, OutOfMemory, READ, RECEIVER_NAME, User};
use jb_model::Reply;
use jb_state::{Head, Message};
use std::alloc::Global;

/// The header's fields as a reading by this user leaves them.
fn read_head(user: &User, moment: u32, message: &Message) -> Head
    ensures { with_head result (owned message.now) ≡ read_message user.now moment (owned message.now) }
{
    let mut head = message.head;
    head.times_read = head.times_read.saturating_add(1);
    let to = field(&message.subfields, RECEIVER_NAME);
    if user.name.as_slice().eq_ignore_ascii_case(to) {
        head.attribute |= READ;
        if head.received == 0 {
            head.received = moment;
        }
    }
    head
}

/// A message is read.
pub(crate) fn read(
    alloc: Global,
    rules: &AreaRules,
    state: &mut PlainState,
    user: &User,
    moment: u32,
    number: u32,
) -> Result<Reply, OutOfMemory>
    ensures { IfOk result (λ reply. record { reply = reply; state = seen_state state.new }
        ≡ read_step rules.now (seen_state state.old) user.now moment number) }
{
    if let Some(rule) = denied(user, rules, Action::List) {
        return Ok(Reply::Denied { rule });
    }
    let Some(message) = visible_at(rules, user, state, number) else {
        return Ok(Reply::NoMessage { number });
    };
    let head = read_head(user, moment, message);
    let letter = letter(alloc, number, head, message)?;
    state.put_head(number, head);
    state.count();
    Ok(Reply::Text { letter })
}

/// A message is looked at.
pub(crate) fn peek(
    alloc: Global,
    rules: &AreaRules,
    state: &PlainState,
    user: &User,
    number: u32,
) -> Result<Reply, OutOfMemory>
    ensures { IfOk result (λ reply. record { reply = reply; state = seen_state state.now }
        ≡ peek_step rules.now (seen_state state.now) user.now number) }
{
    if let Some(rule) = denied(user, rules, Action::List) {
        return Ok(Reply::Denied { rule });
    }
    let Some(message) = visible_at(rules, user, state, number) else {
        return Ok(Reply::NoMessage { number });
    };
    let letter = letter(alloc, number, message.head, message)?;
    Ok(Reply::Text { letter })
}
