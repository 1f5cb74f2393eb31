//! Who may do what.
ghost use Rattle.std.specs.Prelude.{◌≡◌, Some, None};
ghost use Rattle.jb_base.specs.Access.{first_refusal};
ghost use Rattle.jb_base.specs.declared.area.Action.TheVariants.{Edit as Editing, Kill as Killing};
ghost use Rattle.jb_state.specs.Message.{envelope_of};
ghost use Rattle.jb_state.specs.Tight.{owned};

use crate::message::parties;
use jb_access::{Action, allowed};
use jb_base::{AreaRules, Rule, User};
use jb_state::Message;

/// The rule that refuses an act about no message, if one does.
pub(crate) fn denied(user: &User, rules: &AreaRules, action: Action) -> Option<Rule>
    requires kill { action ≡ Killing → ⊥ }
    requires edit { action ≡ Editing → ⊥ }
    ensures { result ≡ first_refusal user.now rules.now action None }
{
    allowed(user, rules, action, None).err()
}

/// The rule that refuses a kill of the message, if one does.
pub(crate) fn kill_denied(user: &User, rules: &AreaRules, message: &Message) -> Option<Rule>
    ensures { result ≡ first_refusal user.now rules.now Killing (Some (envelope_of (owned message.now))) }
{
    allowed(user, rules, Action::Kill, Some(parties(message))).err()
}

/// The rule that refuses an edit of the message, if one does.
pub(crate) fn edit_denied(user: &User, rules: &AreaRules, message: &Message) -> Option<Rule>
    ensures { result ≡ first_refusal user.now rules.now Editing (Some (envelope_of (owned message.now))) }
{
    allowed(user, rules, Action::Edit, Some(parties(message))).err()
}
