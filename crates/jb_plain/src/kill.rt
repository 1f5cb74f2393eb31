//! A message is killed.
ghost use Rattle.std.specs.Prelude.{◌≡◌};
ghost use Rattle.jb_model.specs.Kill.{kill_step};
ghost use Rattle.jb_plain.specs.Seen.{seen_state};

use crate::held::PlainState;
use crate::message::visible_at;
use crate::rule::{denied, kill_denied};
use jb_access::Action;
use jb_base::{AreaRules, User};
use jb_model::Reply;
use jb_state::Slot;

/// A message is killed by its sender, its receiver or the sysop.
pub(crate) fn kill(rules: &AreaRules, state: &mut PlainState, user: &User, number: u32) -> Reply
    ensures { record { reply = result; state = seen_state state.new }
        ≡ kill_step rules.now (seen_state state.old) user.now number }
{
    if let Some(rule) = denied(user, rules, Action::List) {
        return Reply::Denied { rule };
    }
    let Some(message) = visible_at(rules, user, state, number) else {
        return Reply::NoMessage { number };
    };
    if let Some(rule) = kill_denied(user, rules, message) {
        return Reply::Denied { rule };
    }
    state.put_slot(number, Slot::Killed);
    state.count();
    Reply::Killed { number }
}
