//! What a check counts.
ghost use Rattle.std.specs.Prelude.{◌≡◌, ◌↔◌, ◌≤◌, ℕ, IfOk, IsTrue, List, length, map, if◌then◌else◌};
ghost use Rattle.jb_limits.specs.declared.limits.TheConstants.{MOST_SLOTS};
ghost use Rattle.jb_state.specs.Live.{killed_count, live_count, live_from};
ghost use Rattle.jb_state.specs.State.{slot_state};
ghost use Rattle.jb_tool.specs.Check.{CountsSlot, HasReadableId, HaveReadableIds, IsReadAs, empty_count};

use jb_base::{MSGID, OutOfMemory, Subfields};
use jb_msgid::{MsgId, MsgIdError, parse};
use jb_state::LoadedSlot;
use std::alloc::Global;

/// How many messages are live.
pub(crate) fn count_live(slots: &[LoadedSlot]) -> u64
    requires { length slots.now ≤ MOST_SLOTS }
    ensures { (texts : List ℕ) → result ≡ live_count (map (slot_state texts) slots.now) }
{
    slots
        .iter()
        .filter(|slot| matches!(slot, LoadedSlot::Live(_)))
        .count() as u64
}

/// How many messages were killed.
pub(crate) fn count_killed(slots: &[LoadedSlot]) -> u64
    requires { length slots.now ≤ MOST_SLOTS }
    ensures { (texts : List ℕ) → result ≡ killed_count (map (slot_state texts) slots.now) }
{
    slots
        .iter()
        .filter(|slot| matches!(slot, LoadedSlot::Killed { .. }))
        .count() as u64
}

/// How many slots have no message.
pub(crate) fn count_empty(slots: &[LoadedSlot]) -> u64
    requires { length slots.now ≤ MOST_SLOTS }
    ensures { (texts : List ℕ) → result ≡ empty_count (map (slot_state texts) slots.now) }
{
    slots
        .iter()
        .filter(|slot| matches!(slot, LoadedSlot::Empty))
        .count() as u64
}

/// Whether a text was read as an id; where there was no memory for that, nobody knows.
fn is_read(answer: &Result<MsgId, MsgIdError>) -> Result<bool, OutOfMemory>
    ensures { IfOk result (IsReadAs answer.now) }
{
    match answer {
        Ok(_) => Ok(true),
        Err(MsgIdError::NoSerial { .. })
        | Err(MsgIdError::BadQuote { .. })
        | Err(MsgIdError::EmptyAddress) => Ok(false),
        Err(MsgIdError::OutOfMemory) => Err(OutOfMemory),
    }
}

/// Whether the first MSGID is an address and a serial number.
fn has_readable_id(alloc: Global, fields: &Subfields) -> Result<bool, OutOfMemory>
    ensures { IfOk result (λ readable. IsTrue readable ↔ HasReadableId fields.now) }
{
    let Some(text) = fields.first(MSGID) else {
        return Ok(false);
    };
    let answer = parse(alloc, text);
    is_read(&answer)
}

/// Whether a live message with such an id stands there.
fn has_id(alloc: Global, slot: &LoadedSlot) -> Result<bool, OutOfMemory>
    ensures { IfOk result (CountsSlot slot.now) }
{
    match slot {
        LoadedSlot::Live(message) => has_readable_id(alloc, &message.subfields),
        LoadedSlot::Empty | LoadedSlot::Killed { .. } => Ok(false),
    }
}

/// One where it is so, and else none.
fn one_if(so: bool) -> u64
    ensures { result ≡ (if so then 1 else 0) }
{
    if so { 1 } else { 0 }
}

/// How many live messages have such an id.
pub(crate) fn count_ids(alloc: Global, slots: &[LoadedSlot]) -> Result<u64, OutOfMemory>
    requires { length slots.now ≤ MOST_SLOTS }
    ensures { IfOk result (λ count. (texts : List ℕ) (base : ℕ)
        → HaveReadableIds (live_from base (map (slot_state texts) slots.now)) count) }
{
    let mut count = 0;
    for slot in slots {
        count += one_if(has_id(alloc, slot)?);
    }
    Ok(count)
}
