//! What is counted of the area.
ghost use Rattle.std.specs.Prelude.{◌≡◌, ◌≤◌, ◌+◌, ◌-◌, ℕ, List, IfOk, cond, count_by, length, map, unwrap_or, []};
ghost use Rattle.jb_base.specs.Access.{is_visible};
ghost use Rattle.jb_bytes.specs.Subfields.{first_of, receiver_of, sender_of};
ghost use Rattle.jb_limits.specs.declared.limits.TheConstants.{MOST_SLOTS};
ghost use Rattle.jb_tool.specs.LoadSummary.{answer_count, is_seen};
ghost use Rattle.jb_state.specs.Sound.{IsSound};
ghost use Rattle.jb_state.specs.State.{slot_state, state_of};
ghost use Rattle.jb_state.specs.Visible.{last_read_by, unread_by};

use jb_access::{Action, Parties, allowed};
use jb_base::{AreaRules, OutOfMemory, RECEIVER_NAME, SENDER_NAME, Subfields, User};
use jb_crc::jam_crc;
use jb_marks::Marks;
use jb_state::{Loaded, LoadedMessage, LoadedSlot};
use std::alloc::Global;

/// How many live messages have a parent.
pub(crate) fn count_answers(slots: &[LoadedSlot]) -> u64
    requires { length slots.now ≤ MOST_SLOTS }
    ensures { (texts : List ℕ) → result ≡ answer_count (map (slot_state texts) slots.now) }
{
    slots
        .iter()
        .filter(|slot| matches!(slot, LoadedSlot::Live(message) if message.head.reply_to != 0))
        .count() as u64
}

/// The number that the user's mark has as read last, or 0.
fn last_read(alloc: Global, loaded: &Loaded, user: &User) -> Result<u32, OutOfMemory>
    requires { IsSound MOST_SLOTS loaded.now }
    ensures { IfOk result (λ last. (texts : List ℕ)
        → last ≡ last_read_by user.now (state_of texts loaded.now)) }
{
    let marks = Marks::copy(alloc, loaded.marks.as_slice())?;
    match marks.find(jam_crc(user.name.as_slice()), user.id) {
        Some(mark) => Ok(mark.last),
        None => Ok(0),
    }
}

/// The data of the first subfield of a kind, empty where there is none.
fn field(subfields: &Subfields, id: u16) -> &[u8]
    ensures { result.now ≡ unwrap_or (first_of id subfields.now) [] }
{
    match subfields.first(id) {
        Some(bytes) => bytes,
        None => &[],
    }
}

/// Whether the user sees the message.
fn is_seen(rules: &AreaRules, user: &User, message: &LoadedMessage) -> bool
    ensures { result ≡ is_visible user.now rules.now (record {
      sender = sender_of message.now.subfields;
      receiver = receiver_of message.now.subfields;
      attribute = message.now.head.attribute;
    }) }
{
    let parties = Parties {
        from: field(&message.subfields, SENDER_NAME),
        to: field(&message.subfields, RECEIVER_NAME),
        attribute: message.head.attribute,
    };
    allowed(user, rules, Action::List, Some(parties)).is_ok()
}

/// Whether a message stands there that the user sees.
fn is_slot_seen(rules: &AreaRules, user: &User, slot: &LoadedSlot) -> bool
    ensures { (texts : List ℕ) → result ≡ is_seen rules.now user.now (slot_state texts slot.now) }
{
    match slot {
        LoadedSlot::Live(message) => is_seen(rules, user, message),
        LoadedSlot::Empty | LoadedSlot::Killed { .. } => false,
    }
}

/// One where it is so, and else none.
fn one_if(so: bool) -> u64
    ensures { result ≡ cond so 1 0 }
{
    if so { 1 } else { 0 }
}

/// How many of these messages the user sees.
fn count_seen(rules: &AreaRules, user: &User, slots: &[LoadedSlot]) -> u64
    requires { length slots.now ≤ MOST_SLOTS }
    ensures { (texts : List ℕ) → result ≡ count_by (is_seen rules.now user.now)
        (map (slot_state texts) slots.now) }
{
    let mut count = 0;
    for slot in slots {
        count += one_if(is_slot_seen(rules, user, slot));
    }
    count
}

/// How many slots there are up to the number read last, where the first has this number.
fn slots_read(base: u32, last: u32) -> usize
    ensures { result ≡ last + 1 - base }
{
    if last < base {
        0
    } else {
        (last - base) as usize + 1
    }
}

/// How many messages the user has not read: those that the user sees above the one read last.
pub(crate) fn count_unread(
    alloc: Global,
    loaded: &Loaded,
    rules: &AreaRules,
    user: &User,
) -> Result<u64, OutOfMemory>
    requires { IsSound MOST_SLOTS loaded.now }
    ensures { IfOk result (λ count. (texts : List ℕ)
        → count ≡ length (unread_by rules.now user.now (state_of texts loaded.now))) }
{
    let last = last_read(alloc, loaded, user)?;
    match loaded.slots.as_slice().get(slots_read(loaded.base, last)..) {
        Some(behind) => Ok(count_seen(rules, user, behind)),
        None => Ok(0),
    }
}
