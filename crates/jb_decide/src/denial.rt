//! Who may do what.
ghost use Rattle.std.specs.Prelude.{◌≡◌, Some, None, unwrap_or, []};
ghost use Rattle.jb_access.specs.Parties.{envelope};
ghost use Rattle.jb_base.specs.Access.{first_refusal};
ghost use Rattle.jb_bytes.specs.Subfields.{first_of};
ghost use Rattle.jb_base.specs.declared.area.Action.TheVariants.{Edit as Editing, Kill as Killing};
ghost use Rattle.jb_decide.specs.Seen.{loaded_envelope};

use jb_access::{Action, Parties, allowed};
use jb_base::{AreaRules, RECEIVER_NAME, Rule, SENDER_NAME, Subfields, User};
use jb_state::LoadedMessage;

/// The data of the first subfield of a kind, empty where there is none.
pub(crate) fn field(subfields: &Subfields, id: u16) -> &[u8]
    ensures { result.now ≡ unwrap_or (first_of id subfields.now) [] }
{
    match subfields.first(id) {
        Some(bytes) => bytes,
        None => &[],
    }
}

/// The parties of a message, and its attributes.
pub(crate) fn parties(message: &LoadedMessage) -> Parties<'_>
    ensures { envelope result ≡ loaded_envelope message.now }
{
    Parties {
        from: field(&message.subfields, SENDER_NAME),
        to: field(&message.subfields, RECEIVER_NAME),
        attribute: message.head.attribute,
    }
}

/// The rule that refuses an act about no message, if one does.
pub(crate) fn denied(user: &User, rules: &AreaRules, action: Action) -> Option<Rule>
    requires kill { action ≡ Killing → ⊥ }
    requires edit { action ≡ Editing → ⊥ }
    ensures { result ≡ first_refusal user.now rules.now action None }
{
    allowed(user, rules, action, None).err()
}

/// The rule that refuses a kill of the message, if one does.
pub(crate) fn kill_denied(user: &User, rules: &AreaRules, message: &LoadedMessage) -> Option<Rule>
    ensures { result ≡ first_refusal user.now rules.now Killing (Some (loaded_envelope message.now)) }
{
    allowed(user, rules, Action::Kill, Some(parties(message))).err()
}

/// The rule that refuses an edit of the message, if one does.
pub(crate) fn edit_denied(user: &User, rules: &AreaRules, message: &LoadedMessage) -> Option<Rule>
    ensures { result ≡ first_refusal user.now rules.now Editing (Some (loaded_envelope message.now)) }
{
    allowed(user, rules, Action::Edit, Some(parties(message))).err()
}
