//! A message is read, or looked at.
ghost use Rattle.std.specs.Prelude.{◌≡◌, ℕ, IfErr, IfOk};
ghost use Rattle.jb_state.specs.Sound.{IsSound};
ghost use Rattle.jb_state.specs.declared.change.Change.TheVariants.{Nothing};
ghost use Rattle.jb_model.specs.declared.command.Command.TheVariants.{Peek, Read};
ghost use Rattle.jb_decide.specs.Read.{IsLooking, IsReading, read_head};
ghost use Rattle.jb_decide.specs.StepOf.{IsStepOf};

use crate::denial::{denied, field};
use crate::found::seen_at;
use jb_access::Action;
use jb_base::{AreaRules, READ, RECEIVER_NAME, User};
use jb_model::Reply;
use jb_state::{Head, HeadAt, Loaded, LoadedMessage};

/// The header's fields as a reading by this user leaves them.
fn read_head(user: &User, moment: u32, message: &LoadedMessage) -> Head
    ensures { result ≡ read_head user.now moment message.now }
{
    let mut head = message.head;
    head.times_read = head.times_read.saturating_add(1);
    let to = field(&message.subfields, RECEIVER_NAME);
    if user.name.as_slice().eq_ignore_ascii_case(to) {
        head.attribute |= READ;
        if head.received == 0 {
            head.received = moment;
        }
    }
    head
}

/// What a reading of the message with this number does at a moment, in seconds since 1970: its header gets other fields; or
/// why it is refused.
pub(crate) fn read(
    loaded: &Loaded,
    rules: &AreaRules,
    user: &User,
    moment: u32,
    number: u32,
) -> Result<HeadAt, Reply>
    requires sound { IsSound rules.now.slots loaded.now }
    ensures refused { IfErr result (λ reply.
        IsStepOf rules.now loaded.now user.now moment (Read number) (λ texts. reply) Nothing) }
    ensures done { IfOk result (λ at. IsReading rules.now loaded.now user.now moment number at) }
{
    if let Some(rule) = denied(user, rules, Action::List) {
        return Err(Reply::Denied { rule });
    }
    let Some(found) = seen_at(rules, user, loaded, number) else {
        return Err(Reply::NoMessage { number });
    };
    Ok(HeadAt {
        place: found.place,
        head: read_head(user, moment, found.message),
    })
}

/// At which place the message with this number stands, at which the user looks, or why the look is refused.
pub(crate) fn peek(
    loaded: &Loaded,
    rules: &AreaRules,
    user: &User,
    number: u32,
) -> Result<usize, Reply>
    requires sound { IsSound rules.now.slots loaded.now }
    ensures refused { IfErr result (λ reply. (moment : ℕ)
        → IsStepOf rules.now loaded.now user.now moment (Peek number) (λ texts. reply) Nothing) }
    ensures done { IfOk result (λ place. IsLooking rules.now loaded.now user.now number place) }
{
    if let Some(rule) = denied(user, rules, Action::List) {
        return Err(Reply::Denied { rule });
    }
    let Some(found) = seen_at(rules, user, loaded, number) else {
        return Err(Reply::NoMessage { number });
    };
    Ok(found.place)
}
