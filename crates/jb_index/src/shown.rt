//! What a user sees of the summaries, and which of them are asked for.
ghost use Rattle.std.specs.Prelude.{◌≡◌, ◌≤◌, ◌&&◌, true};
ghost use Rattle.jb_access.specs.Parties.{envelope};
ghost use Rattle.jb_bytes.specs.Name.{same_name};
ghost use Rattle.jb_index.specs.Answer.{envelope_in, is_listed, name_in};
ghost use Rattle.jb_index.specs.Wanted.{is_kind};

use jb_access::{Action, Parties, allowed};
use jb_base::{AreaRules, MOST_NAME_BYTES, User};
use jb_state::{Short, Summary};

/// Which of the messages that a user sees are asked for.
#[derive(Clone, Copy)]
pub(crate) enum Wanted {
    /// All of them.
    All,
    /// Those with a number above this one.
    Above(u32),
    /// Those whose receiver is the user.
    Received,
}

/// The name of a party. One that is longer than what is kept of it is nobody's, and so the empty one.
fn name(short: &Short<36>) -> &[u8]
    ensures { result.now ≡ name_in short.now }
{
    if short.length as usize > MOST_NAME_BYTES {
        &[]
    } else {
        short.as_slice()
    }
}

/// What the rules of an area look at.
fn parties(summary: &Summary) -> Parties<'_>
    ensures { envelope result ≡ envelope_in summary.now }
{
    Parties {
        from: name(&summary.from),
        to: name(&summary.to),
        attribute: summary.attribute,
    }
}

/// Whether the user sees the message.
pub(crate) fn is_shown(rules: &AreaRules, user: &User, summary: &Summary) -> bool
    ensures { result ≡ is_listed rules.now user.now summary.now }
{
    allowed(user, rules, Action::List, Some(parties(summary))).is_ok()
}

/// Whether the receiver of the message is the user.
fn is_receiver(user: &User, summary: &Summary) -> bool
    ensures { result ≡ same_name user.now.name (name_in summary.now.to) }
{
    user.name.as_slice().eq_ignore_ascii_case(name(&summary.to))
}

/// Whether the message is one of this kind.
fn is_kind(user: &User, wanted: Wanted, summary: &Summary) -> bool
    ensures { result ≡ is_kind user.now wanted summary.now }
{
    match wanted {
        Wanted::All => true,
        Wanted::Above(last) => last < summary.number,
        Wanted::Received => is_receiver(user, summary),
    }
}

/// A number below which no message of this kind is: the one behind that of `Above`, else 0.
pub(crate) fn lowest(wanted: Wanted) -> u32
    ensures { (user : User) (one : Summary) → is_kind user wanted one ≡ true → result ≤ one.number }
{
    match wanted {
        Wanted::Above(last) => last.saturating_add(1),
        Wanted::All | Wanted::Received => 0,
    }
}

/// Whether the user sees the message and it is one of this kind.
pub(crate) fn is_wanted(rules: &AreaRules, user: &User, wanted: Wanted, summary: &Summary) -> bool
    ensures { result ≡ (is_listed rules.now user.now summary.now && is_kind user.now wanted summary.now) }
{
    is_kind(user, wanted, summary) && is_shown(rules, user, summary)
}
