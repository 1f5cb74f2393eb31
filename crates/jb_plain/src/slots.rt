//! The slots of the plain program: their changes, and the bytes that they take.
ghost use Rattle.std.specs.Prelude.{◌≡◌, ◌+◌, ◌<◌, ◌≤◌, length, map, min, ◌^◌, ◌-◌, count_by, drop, slice_index_or, slice_set, vec_len};
ghost use Rattle.jb_state.specs.Live.{killed_count, live_count};
ghost use Rattle.jb_state.specs.Tight.{header_bytes, headers_together, owned_slot, text_bytes, texts_together};
ghost use Rattle.jb_state.specs.declared.area.Slot.{Slot};
ghost use Rattle.jb_plain.specs.Walk.{front_of, slot_with_head, with_some_head, without_killed};

use jb_state::{Head, Slot};
use jb_subfield::headed_length;

/// Puts a slot in the place of another.
pub(crate) fn set_slot(slots: &mut Vec<Slot>, place: usize, slot: Slot)
    requires { place < vec_len slots.old }
    ensures kept { vec_len slots.new ≡ vec_len slots.old }
    ensures value { slots.new.items ≡ slice_set slots.old.items place slot }
{
    slots[place] = slot;
}

/// Writes these fields into the header of the message at a place.
pub(crate) fn set_head(slots: &mut Vec<Slot>, place: usize, head: Head)
    requires { place < vec_len slots.old }
    ensures kept { vec_len slots.new ≡ vec_len slots.old }
    ensures value { (d : Slot) → slots.new.items ≡ slice_set slots.old.items place
        (slot_with_head head (slice_index_or slots.old.items place d)) }
{
    if let Slot::Live(message) = &mut slots[place] {
        message.head = head;
    }
}

/// Writes these fields into the header of the message at a place, where there are some.
pub(crate) fn set_some_head(slots: &mut Vec<Slot>, place: usize, head: Option<Head>)
    requires { place < vec_len slots.old }
    ensures kept { vec_len slots.new ≡ vec_len slots.old }
    ensures value { (d : Slot) → slots.new.items ≡ slice_set slots.old.items place
        (with_some_head head (slice_index_or slots.old.items place d)) }
{
    if let Some(head) = head {
        set_head(slots, place, head);
    }
}

/// Makes the slot of a killed message empty.
fn empty_one(slots: &mut Vec<Slot>, place: usize)
    requires { place < vec_len slots.old }
    ensures kept { vec_len slots.new ≡ vec_len slots.old }
    ensures value { (d : Slot) → slots.new.items ≡ slice_set slots.old.items place
        (without_killed (slice_index_or slots.old.items place d)) }
{
    if let Slot::Killed = slots[place] {
        slots[place] = Slot::Empty;
    }
}

/// Drops the first so many slots.
pub(crate) fn cut_front(slots: &mut Vec<Slot>, front: usize)
    requires { front ≤ vec_len slots.old }
    ensures kept { vec_len slots.new + front ≡ vec_len slots.old }
    ensures value { slots.new.items ≡ drop front slots.old.items }
{
    for place in 0..front {
        slots.remove(0);
    }
}

/// Makes each slot of a killed message empty.
pub(crate) fn empty_killed(slots: &mut Vec<Slot>)
    ensures kept { vec_len slots.new ≡ vec_len slots.old }
    ensures value { slots.new.items ≡ map without_killed slots.old.items }
{
    for place in 0..slots.len() {
        empty_one(slots, place);
    }
}

/// How many slots stand in front of the first live message.
pub(crate) fn slots_in_front(slots: &[Slot]) -> usize
    ensures same { result ≡ front_of slots.now }
    ensures few { result ≤ length slots.now }
{
    for (place, slot) in slots.iter().enumerate() {
        if let Slot::Live(_) = slot {
            return place;
        }
    }
    slots.len()
}

/// How many messages are live.
pub(crate) fn live_messages(slots: &[Slot]) -> usize
    ensures same { result ≡ live_count (map owned_slot slots.now) }
    ensures few { result ≤ length slots.now }
{
    slots
        .iter()
        .filter(|slot| matches!(slot, Slot::Live(_)))
        .count()
}

/// How many messages are killed.
pub(crate) fn killed_messages(slots: &[Slot]) -> usize
    ensures same { result ≡ killed_count (map owned_slot slots.now) }
    ensures few { result ≤ length slots.now }
{
    slots
        .iter()
        .filter(|slot| matches!(slot, Slot::Killed))
        .count()
}

/// The bytes of .JHR that a slot's live message takes, told as 2^64 - 1 where they are more.
fn slot_header(slot: &Slot) -> u64
    ensures { result ≡ min (header_bytes (owned_slot slot.now)) (2 ^ 64 - 1) }
{
    match slot {
        Slot::Live(message) => headed_length(&message.subfields),
        Slot::Empty => 0,
        Slot::Killed => 0,
    }
}

/// The bytes of .JDT that a slot's live message takes.
fn slot_text(slot: &Slot) -> u64
    ensures { result ≡ text_bytes (owned_slot slot.now) }
{
    match slot {
        Slot::Live(message) => message.text.len() as u64,
        Slot::Empty => 0,
        Slot::Killed => 0,
    }
}

/// The length of .JHR with just these messages, told as 2^64 - 1 where it is more.
pub(crate) fn headers_length(slots: &[Slot]) -> u64
    ensures { result ≡ min (1024 + headers_together (map owned_slot slots.now)) (2 ^ 64 - 1) }
{
    let mut len: u64 = 1024;
    for slot in slots {
        len = len.saturating_add(slot_header(slot));
    }
    len
}

/// The length of .JDT with just these messages, told as 2^64 - 1 where it is more.
pub(crate) fn texts_length(slots: &[Slot]) -> u64
    ensures { result ≡ min (texts_together (map owned_slot slots.now)) (2 ^ 64 - 1) }
{
    let mut len: u64 = 0;
    for slot in slots {
        len = len.saturating_add(slot_text(slot));
    }
    len
}
