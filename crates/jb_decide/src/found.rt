//! The message that a number names.
ghost use Rattle.std.specs.Prelude.{◌≡◌, ◌+◌, ◌≤◌, length, IfSome, option_map};
ghost use Rattle.jb_base.specs.Access.{is_visible};
ghost use Rattle.jb_state.specs.Plan.{loaded_at};
ghost use Rattle.jb_decide.specs.Seen.{IsNamed, loaded_envelope, seen_at};
ghost use Rattle.jb_decide.specs.declared.found.Found.{Found};

use crate::denial::parties;
use jb_access::{Action, allowed};
use jb_base::{AreaRules, User};
use jb_link::message_at;
use jb_state::{Loaded, LoadedMessage};

/// A live message, and the place of its slot.
#[derive(Clone, Copy)]
pub(crate) struct Found<'a> {
    pub place: usize,
    pub message: &'a LoadedMessage,
}

/// The number that the next message gets.
pub(crate) fn next_number(loaded: &Loaded) -> u32
    requires { loaded.now.base + length loaded.now.slots ≤ 4_294_967_295 }
    ensures { result ≡ loaded.now.base + length loaded.now.slots }
{
    loaded.base + loaded.slots.as_slice().len() as u32
}

/// Whether the user sees the message.
fn is_seen(rules: &AreaRules, user: &User, message: &LoadedMessage) -> bool
    ensures { result ≡ is_visible user.now rules.now (loaded_envelope message.now) }
{
    allowed(user, rules, Action::List, Some(parties(message))).is_ok()
}

/// The live message that a number names, with its place.
pub(crate) fn found_at(loaded: &Loaded, number: u32) -> Option<Found<'_>>
    ensures named { option_map (λ (found : Found). found.message.now) result ≡ loaded_at loaded.now number }
    ensures placed { IfSome result (λ found. IsNamed loaded.now number found.place found.message.now) }
{
    let message = message_at(loaded, number)?;
    let place = (number - loaded.base) as usize;
    Some(Found { place, message })
}

/// The live message that a number names, where the user sees it.
pub(crate) fn seen_at<'a>(
    rules: &AreaRules,
    user: &User,
    loaded: &'a Loaded,
    number: u32,
) -> Option<Found<'a>>
    ensures named { option_map (λ (found : Found). found.message.now) result
        ≡ seen_at rules.now user.now loaded.now number }
    ensures placed { IfSome result (λ found. IsNamed loaded.now number found.place found.message.now) }
{
    let found = found_at(loaded, number)?;
    if is_seen(rules, user, found.message) {
        Some(found)
    } else {
        None
    }
}
