//! A message is killed.
ghost use Rattle.std.specs.Prelude.{ℕ};
ghost use Rattle.jb_change.specs.Put.{IsShort};
ghost use Rattle.jb_state.specs.Sound.{IsSound};
ghost use Rattle.jb_model.specs.declared.command.Command.TheVariants.{Kill};
ghost use Rattle.jb_decide.specs.StepOf.{IsStepOf};

use crate::denial::{denied, kill_denied};
use crate::found::seen_at;
use crate::outcome::Outcome;
use jb_access::Action;
use jb_base::{AreaRules, User};
use jb_model::Reply;
use jb_state::{Change, Loaded};

/// What a kill of the message with this number does: its slot is of a killed message from now on.
pub(crate) fn kill(loaded: &Loaded, rules: &AreaRules, user: &User, number: u32) -> Outcome
    requires sound { IsSound rules.now.slots loaded.now }
    ensures step { (moment : ℕ) → IsStepOf rules.now loaded.now user.now moment (Kill number)
        (λ texts. result.reply) result.change }
    ensures short { IsShort result.change }
{
    if let Some(rule) = denied(user, rules, Action::List) {
        return Outcome::unchanged(Reply::Denied { rule });
    }
    let Some(found) = seen_at(rules, user, loaded, number) else {
        return Outcome::unchanged(Reply::NoMessage { number });
    };
    if let Some(rule) = kill_denied(user, rules, found.message) {
        return Outcome::unchanged(Reply::Denied { rule });
    }
    Outcome {
        reply: Reply::Killed { number },
        change: Change::Killed { place: found.place },
    }
}
