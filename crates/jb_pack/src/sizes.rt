//! How much of an area is live.
ghost use Rattle.std.specs.Prelude.{◌≡◌, ◌+◌, ◌<◌, ◌≤◌, ◌^◌, if◌then◌else◌, length, position};
ghost use Rattle.std.specs.List.{position_or_len};
ghost use Rattle.jb_limits.specs.declared.limits.TheConstants.{HEADERS_CEILING, MOST_SLOTS};
ghost use Rattle.jb_state.specs.Packed.{headers_size, is_killed_slot, is_live_slot, slot_header_size, slot_text_size, texts_size};
ghost use Rattle.jb_pack.specs.Plan.{AreSizesOf};

use jb_state::LoadedSlot;
use jb_subfield::headed_length;

/// How many messages are live and how many were killed, and the bytes that the headers of the live ones, with their
/// subfields, take in .JHR and their texts in .JDT.
#[derive(Clone, Copy)]
pub(crate) struct Sizes {
    pub(crate) live: u32,
    pub(crate) killed: u32,
    pub(crate) headers: u64,
    pub(crate) texts: u64,
}

/// The same with one slot more.
fn and_slot(sizes: Sizes, slot: &LoadedSlot) -> Sizes
    requires live { sizes.live + 1 < 2 ^ 32 }
    requires killed { sizes.killed + 1 < 2 ^ 32 }
    requires headers { sizes.headers + slot_header_size slot.now < 2 ^ 64 }
    requires texts { sizes.texts + slot_text_size slot.now < 2 ^ 64 }
    ensures live { result.live ≡ sizes.live + (if is_live_slot slot.now then 1 else 0) }
    ensures killed { result.killed ≡ sizes.killed + (if is_killed_slot slot.now then 1 else 0) }
    ensures headers { result.headers ≡ sizes.headers + slot_header_size slot.now }
    ensures texts { result.texts ≡ sizes.texts + slot_text_size slot.now }
{
    match slot {
        LoadedSlot::Empty => sizes,
        LoadedSlot::Killed { .. } => Sizes {
            killed: sizes.killed + 1,
            ..sizes
        },
        LoadedSlot::Live(message) => Sizes {
            live: sizes.live + 1,
            killed: sizes.killed,
            headers: sizes.headers + headed_length(&message.subfields),
            texts: sizes.texts + message.text_len as u64,
        },
    }
}

/// Those of these slots.
pub(crate) fn sizes_of(slots: &[LoadedSlot]) -> Sizes
    requires few { length slots.now ≤ MOST_SLOTS }
    requires headers { headers_size slots.now ≤ HEADERS_CEILING }
    requires texts { texts_size slots.now < 2 ^ 64 }
    ensures { AreSizesOf slots.now result }
{
    let mut sizes = Sizes {
        live: 0,
        killed: 0,
        headers: 0,
        texts: 0,
    };
    for slot in slots {
        sizes = and_slot(sizes, slot);
    }
    sizes
}

/// Whether a live message stands there.
fn is_live(slot: &LoadedSlot) -> bool
    ensures { result ≡ is_live_slot slot.now }
{
    matches!(slot, LoadedSlot::Live(_))
}

/// The place of the first live message, where there is one.
fn place_of_live(slots: &[LoadedSlot]) -> Option<usize>
    ensures { result ≡ position is_live_slot slots.now }
{
    slots.iter().position(|slot| is_live(slot))
}

/// The place of the first live message, or the one behind all slots.
pub(crate) fn first_live(slots: &[LoadedSlot]) -> usize
    ensures { result ≡ position_or_len is_live_slot slots.now }
{
    match place_of_live(slots) {
        Some(place) => place,
        None => slots.len(),
    }
}
