//! A count over an area as it is loaded, for which no index is made.
ghost use Rattle.std.specs.Prelude.{◌≡◌, ◌+◌, ◌≤◌, ◌&&◌, ℕ, List, [], ◌∷◌, All, filter, length, map};
ghost use Rattle.jb_bytes.specs.Crc.{jam_crc_of};
ghost use Rattle.jb_index.specs.Answer.{last_of, unread_to};
ghost use Rattle.jb_index.specs.Index.{index_of};
ghost use Rattle.jb_index.specs.Making.{HasFewBytes, is_unread, slots_listed};
ghost use Rattle.jb_state.specs.LiveSlots.{linkables_from};
ghost use Rattle.jb_state.specs.Links.{Linkable};
ghost use Rattle.jb_state.specs.Marks.{mark_of};
ghost use Rattle.jb_state.specs.Sound.{IsSound};
ghost use Rattle.jb_state.specs.State.{state_of};

use crate::making::summary;
use crate::shown::{Wanted, is_wanted};
use jb_base::{AreaRules, User};
use jb_crc::jam_crc;
use jb_state::{Loaded, LoadedSlot, Mark};

/// The number that the user's mark has as read last, or 0.
fn last_read(marks: &[Mark], user: &User) -> u32
    ensures { result ≡ last_of (mark_of (jam_crc_of user.now.name) user.now.id marks.now) }
{
    let user_crc = jam_crc(user.name.as_slice());
    match marks.iter().find(|mark| mark.user_crc == user_crc && mark.user_id == user.id) {
        Some(mark) => mark.last,
        None => 0,
    }
}

/// 1 where the slot with this number is a message that the user sees, with a number above this one, else 0.
fn unread_at(number: u32, slot: &LoadedSlot, rules: &AreaRules, user: &User, last: u32) -> u32
    requires few_bytes { HasFewBytes slot.now }
    ensures count { (live : List Linkable) → result ≡ length
        (filter (is_unread rules.now user.now last) (slots_listed live number (slot.now ∷ []))) }
    ensures one { result ≤ 1 }
{
    let LoadedSlot::Live(message) = slot else {
        return 0;
    };
    let one = summary(number, message, 0);
    if is_wanted(rules, user, Wanted::Above(last), &one) {
        1
    } else {
        0
    }
}

/// How many of these slots, of which the first has the number `base`, are messages that the user sees, with numbers above
/// this one.
fn unread_among(base: u32, slots: &[LoadedSlot], rules: &AreaRules, user: &User, last: u32) -> u32
    requires numbers { base + length slots.now ≤ 4_294_967_295 }
    requires few_bytes { All HasFewBytes slots.now }
    ensures { result ≡ length (filter (is_unread rules.now user.now last)
        (slots_listed (linkables_from base slots.now) base slots.now)) }
{
    let mut count = 0;
    for place in 0..slots.len() {
        count += unread_at(base + place as u32, &slots[place], rules, user, last);
    }
    count
}

/// How many messages of the area the user has not read, as an index of it would say. It takes no memory, and looks once at
/// each mark and at each slot.
pub fn unread_in(loaded: &Loaded, rules: &AreaRules, user: &User) -> u32
    requires sound { IsSound rules.now.slots loaded.now }
    ensures { (texts : List ℕ) → result ≡ length
        (unread_to (index_of rules.now (state_of texts loaded.now)) user.now) }
{
    let last = last_read(loaded.marks.as_slice(), user);
    let slots = loaded.slots.as_slice();
    unread_among(loaded.base, slots, rules, user, last)
}
