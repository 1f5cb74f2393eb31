//! Whether the plain program's area is the one that was loaded.

use jb_state::{Area, Loaded, LoadedMessage, LoadedSlot, Message, Slot};

// Whether it is this message, with its text among these.
fn same_message(message: &Message, loaded: &LoadedMessage, texts: &[u8]) -> bool {
    let from = loaded.text_at as usize;
    let to = from.saturating_add(loaded.text_len as usize);
    message.head == loaded.head
        && message.subfields.as_bytes() == loaded.subfields.as_bytes()
        && texts.get(from..to) == Some(message.text.as_slice())
}

// Whether the same stands in the slot.
fn same_slot(slot: &Slot, loaded: &LoadedSlot, texts: &[u8]) -> bool {
    match (slot, loaded) {
        (Slot::Empty, LoadedSlot::Empty) | (Slot::Killed, LoadedSlot::Killed { .. }) => true,
        (Slot::Live(message), LoadedSlot::Live(loaded)) => same_message(message, loaded, texts),
        _ => false,
    }
}

// Whether the same stands in each slot.
fn same_slots(slots: &[Slot], found: &[LoadedSlot], texts: &[u8]) -> bool {
    for place in 0..slots.len() {
        match found.get(place) {
            Some(found) if same_slot(&slots[place], found, texts) => {}
            _ => return false,
        }
    }
    slots.len() == found.len()
}

/// Whether it is this area, with its texts among these: base number, marks, and what stands in each slot.
pub fn same_area(area: &Area, loaded: &Loaded, texts: &[u8]) -> bool {
    area.base == loaded.base
        && area.marks.as_slice() == loaded.marks.as_slice()
        && same_slots(area.slots.as_slice(), loaded.slots.as_slice(), texts)
}
