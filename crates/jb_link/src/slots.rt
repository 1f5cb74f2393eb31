//! What the slots hold.
ghost use Rattle.std.specs.Prelude.{◌≡◌, ◌==◌, Some, find, slice_get};
ghost use Rattle.std.specs.Option.{is_some};
ghost use Rattle.jb_state.specs.Links.{number_or_0};
ghost use Rattle.jb_link.specs.Ids.{lent, msgid_at};
ghost use Rattle.jb_state.specs.LiveSlots.{linkables_from, message_in, msgid_in};

use jb_base::MSGID;
use jb_state::LoadedSlot;

/// Whether a live message stands there.
pub(crate) fn is_live_slot(slot: &LoadedSlot) -> bool
    ensures { result ≡ is_some (message_in (Some slot.now)) }
{
    matches!(slot, LoadedSlot::Live(_))
}

/// Whether a live message stands at this place.
fn is_live_at(slots: &[LoadedSlot], place: usize) -> bool
    ensures { result ≡ is_some (message_in (slice_get slots.now place)) }
{
    matches!(slots.get(place), Some(LoadedSlot::Live(_)))
}

/// This number where it is a live one, or 0; the first slot has the number `base`.
pub(crate) fn number_if_live(base: u32, slots: &[LoadedSlot], number: u32) -> u32
    ensures { result ≡ number_or_0 (find (λ one. one.number == number) (linkables_from base slots.now)) }
{
    if number >= base && is_live_at(slots, (number - base) as usize) {
        number
    } else {
        0
    }
}

/// The MSGID of the live message of a slot, where it has one.
pub(crate) fn msgid_in(slot: &LoadedSlot) -> Option<&[u8]>
    ensures { lent result ≡ msgid_in (Some slot.now) }
{
    match slot {
        LoadedSlot::Live(message) => message.subfields.first(MSGID),
        _ => None,
    }
}

/// The MSGID of the live message with this number, where it has one; the first slot has the number `base`.
pub(crate) fn msgid_at(base: u32, slots: &[LoadedSlot], number: u32) -> Option<&[u8]>
    ensures { lent result ≡ msgid_at base slots.now number }
{
    if number < base {
        return None;
    }
    msgid_in(slots.get((number - base) as usize)?)
}
