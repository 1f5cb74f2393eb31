//! The rules of an area, asked in their order.
ghost use Rattle.std.specs.Prelude.{◌≡◌, IsSome, option_map};
ghost use Rattle.std.specs.Result.{result_err};
ghost use Rattle.jb_base.specs.Access.{first_refusal};
ghost use Rattle.jb_base.specs.declared.area.Action.TheVariants.{Edit as Editing, Kill as Killing};
ghost use Rattle.jb_access.specs.Parties.{envelope};

use crate::Parties;
use jb_base::{Action, AreaRules, Rule, User};

/// Whether the user may do this. `message` is the one that the act is about, and a kill and an edit have one. Without
/// one nothing is asked about messages; with one, A3 is asked whatever the act is, before A4 to A6.
pub fn allowed(
    user: &User,
    rules: &AreaRules,
    action: Action,
    message: Option<Parties<'_>>,
) -> Result<(), Rule>
    requires kill { action ≡ Killing → IsSome message }
    requires edit { action ≡ Editing → IsSome message }
    ensures { result_err result ≡ first_refusal user.now rules.now action
        (option_map envelope message.entry) }
{
    let is_sysop = user.level >= rules.sysop;
    if action != Action::Tend && user.level < rules.read {
        return Err(Rule::A1);
    }
    if action == Action::Post && user.level < rules.post {
        return Err(Rule::A2);
    }
    if let Some(parties) = &message {
        if !is_sysop && parties.withhold_from(user) {
            return Err(Rule::A3);
        }
        if action == Action::Kill && !is_sysop && !parties.include(user) {
            return Err(Rule::A4);
        }
        if action == Action::Edit && !is_sysop && !parties.are_from(user) {
            return Err(Rule::A6);
        }
    }
    if action == Action::Tend && !is_sysop {
        return Err(Rule::A5);
    }
    Ok(())
}
