//! The reply links of an area are computed anew.
ghost use Rattle.std.specs.Prelude.{ℕ, IfOk};
ghost use Rattle.jb_state.specs.Sound.{IsSound};
ghost use Rattle.jb_model.specs.declared.command.Command.TheVariants.{Relink};
ghost use Rattle.jb_decide.specs.StepOf.{IsStepOf};

use crate::denial::denied;
use crate::outcome::Outcome;
use jb_access::Action;
use jb_base::{AreaRules, OutOfMemory, User};
use jb_link::{changed, relink_plan};
use jb_model::Reply;
use jb_state::{Change, Loaded};
use std::alloc::Global;

/// What a relink does: the headers have the links of a plan from now on, and nothing changes where no message has another.
pub(crate) fn relink(
    alloc: Global,
    loaded: &Loaded,
    rules: &AreaRules,
    user: &User,
) -> Result<Outcome, OutOfMemory>
    requires sound { IsSound rules.now.slots loaded.now }
    ensures { IfOk result (λ outcome. (moment : ℕ)
        → IsStepOf rules.now loaded.now user.now moment Relink (λ texts.
        outcome.reply) outcome.change) }
{
    if let Some(rule) = denied(user, rules, Action::Tend) {
        return Ok(Outcome::unchanged(Reply::Denied { rule }));
    }
    let plan = relink_plan(alloc, loaded)?;
    let changed = changed(loaded, plan.as_slice());
    let reply = Reply::Relinked { changed };
    if changed == 0 {
        return Ok(Outcome::unchanged(reply));
    }
    let change = Change::Relinked { plan };
    Ok(Outcome { reply, change })
}
