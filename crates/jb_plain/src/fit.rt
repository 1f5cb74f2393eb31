//! Whether an area may be run.
ghost use Rattle.std.specs.Prelude.{◌≡◌, ◌↔◌, IsTrue};
ghost use Rattle.std.specs.List.{list_all};
ghost use Rattle.jb_state.specs.State.{IsWellFormed};
ghost use Rattle.jb_state.specs.Tight.{tight_state};
ghost use Rattle.jb_plain.specs.Fit.{area_fits, message_fits, slot_fits};

use jb_base::{DELETED, MOST_MARKS, MOST_SUBFIELD_BYTES, MOST_TEXT_BYTES};
use jb_state::{Area, Message, Slot};

/// Whether the message keeps the limits of a base, and no bit says that it is killed.
fn fits_message(message: &Message) -> bool
    ensures { result ≡ message_fits message.now }
{
    message.subfields.as_bytes().len() <= MOST_SUBFIELD_BYTES as usize
        && message.text.len() <= MOST_TEXT_BYTES as usize
        && message.head.attribute & DELETED == 0
}

/// Whether the slot's message does, where there is one.
fn fits_slot(slot: &Slot) -> bool
    ensures { result ≡ slot_fits slot.now }
{
    match slot {
        Slot::Live(message) => fits_message(message),
        Slot::Empty => true,
        Slot::Killed => true,
    }
}

/// Whether each slot's message does.
fn fit_slots(slots: &[Slot]) -> bool
    ensures { result ≡ list_all slot_fits slots.now }
{
    for slot in slots {
        if !fits_slot(slot) {
            return false;
        }
    }
    true
}

/// Whether the area keeps the limits of a base of at most so many slots.
fn fits_area(area: &Area, slots: u32) -> bool
    ensures { result ≡ area_fits slots area.now }
{
    let count = area.slots.as_slice().len() as u64;
    let marks = area.marks.as_slice().len();
    1 <= area.base
        && u64::from(area.base).saturating_add(count) <= u64::from(u32::MAX)
        && count <= u64::from(slots)
        && marks <= MOST_MARKS as usize
        && fit_slots(area.slots.as_slice())
}

/// Whether files that hold just the messages of the area are a base of at most so many slots, as [`run_slow`] asks:
/// its numbers fit four bytes, its marks are at most 65,000, and no live message is too long or marked as killed.
///
/// [`run_slow`]: crate::run_slow
pub fn may_run(area: &Area, slots: u32) -> bool
    ensures { IsTrue result ↔ IsWellFormed slots (tight_state area.now) }
{
    fits_area(area, slots)
}
