//! An area in memory is packed where it is.
ghost use Rattle.std.specs.Prelude.{◌≡◌, ◌+◌, ◌<◌, ◌≤◌, ◌^◌, List, length, map};
ghost use Rattle.jb_limits.specs.declared.limits.TheConstants.{HEADERS_CEILING, MOST_SLOTS, TEXTS_CEILING};
ghost use Rattle.jb_state.specs.Plan.{links_of, plan_of};
ghost use Rattle.jb_state.specs.LiveSlots.{linkables_from};
ghost use Rattle.jb_state.specs.Links.{Linkable};
ghost use Rattle.jb_state.specs.Sound.{IsSound};
ghost use Rattle.jb_pack.specs.Moving.{HasLinks};
ghost use Rattle.jb_state.specs.Packed.{headers_size, kept_slots, live_slots, new_base, packed, packed_from, texts_size};

use crate::headers::linked;
use crate::place::{Place, behind};
use jb_record::FIXED_HEADER_BYTES;
use jb_state::{Links, Loaded, LoadedSlot, LoadedSlots};

/// Moves the live messages of slots of which the first has the number `base` behind one another, with their links, and
/// empties the other slots. Answers the place behind the last.
fn move_slots(slots: &mut LoadedSlots, links: &[Links], base: u32) -> Place
    requires links { HasLinks base slots.old links.now }
    requires numbers { base + length slots.old ≤ 4_294_967_295 }
    requires headers { 1024 + headers_size slots.old ≤ HEADERS_CEILING }
    requires texts { texts_size slots.old ≤ TEXTS_CEILING }
    ensures moved { (live : List Linkable) → links.now ≡ map (links_of live) (linkables_from base slots.old)
        → slots.new ≡ packed_from live base 1024 0 slots.old }
    ensures live { result.live ≡ live_slots slots.old }
    ensures headers { result.header_at ≡ 1024 + headers_size slots.old }
    ensures texts { result.text_at ≡ texts_size slots.old }
{
    let mut place = Place {
        number: base,
        header_at: FIXED_HEADER_BYTES as u32,
        text_at: 0,
        live: 0,
    };
    for at in 0..slots.as_slice().len() {
        let LoadedSlot::Live(message) = &slots.as_slice()[at] else {
            slots.set(at, LoadedSlot::Empty);
            place.number += 1;
            continue;
        };
        let head = linked(message.head, &links[place.live as usize]);
        let next = behind(message, place);
        slots.set_place(at, head, place.header_at, place.text_at);
        place = next;
    }
    place
}

/// Makes of the area as it is loaded the packed one, as [`plan`](crate::plan) makes it of the files: with the base that it
/// answers and the same links. It takes no memory, and its time is linear in the slots and their subfields.
pub fn pack_loaded(loaded: &mut Loaded, links: &[Links], base: u32)
    requires sound { IsSound MOST_SLOTS loaded.old }
    requires links { links.now ≡ plan_of (linkables_from loaded.old.base loaded.old.slots) }
    requires base { base ≡ new_base loaded.old }
    requires texts { texts_size (kept_slots loaded.old) ≤ TEXTS_CEILING }
    ensures { loaded.new ≡ packed loaded.old }
{
    loaded.slots.drop_first((base - loaded.base) as usize);
    let end = move_slots(&mut loaded.slots, links, base);
    loaded.base = base;
    loaded.counter = loaded.counter.wrapping_add(1);
    loaded.active = end.live;
    loaded.headers_len = end.header_at as u64;
    loaded.texts_len = end.text_at as u64;
}
