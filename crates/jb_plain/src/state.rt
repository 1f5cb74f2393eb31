//! The numbers of an area that the plain program keeps, and its changes.
ghost use Rattle.std.specs.Prelude.{◌≡◌, ◌+◌, ◌<◌, ◌≤◌, length, map, min, ◌^◌, ◌-◌, ◌++◌, ◌∷◌, [], OnOk};
ghost use Rattle.jb_bytes.specs.Subfields.{subfield_bytes};
ghost use Rattle.jb_state.specs.Live.{counted, live_count, with_slot};
ghost use Rattle.jb_model.specs.Run.{area_of};
ghost use Rattle.jb_state.specs.State.{IsWellFormed, live_message, next_number};
ghost use Rattle.jb_state.specs.Tight.{header_bytes, headers_together, owned, owned_slot, text_bytes, texts_together, tight_state};
ghost use Rattle.jb_state.specs.declared.area.Message.{Message};
ghost use Rattle.jb_plain.specs.Seen.{HasAt, seen_state, with_head};

use crate::held::PlainState;
use crate::slots::{headers_length, live_messages, set_head, set_slot, texts_length};
use jb_state::{Area, Head, Marks, Slot, Slots};

impl PlainState {
    /// The state of an area whose files hold nothing but its messages.
    pub(crate) fn of(area: Area, slots: u32) -> PlainState
        requires { IsWellFormed slots (tight_state area) }
        ensures { seen_state result ≡ tight_state area }
    {
        let slots = area.slots.into_vec();
        let headers_len = headers_length(&slots);
        let texts_len = texts_length(&slots);
        PlainState {
            base: area.base,
            slots,
            marks: area.marks.into_vec(),
            counter: 0,
            active: 0,
            headers_len,
            texts_len,
        }
    }

    /// The area of the state.
    pub(crate) fn into_area(self) -> Area
        ensures { result ≡ area_of (seen_state self) }
    {
        Area {
            base: self.base,
            slots: Slots::from(self.slots),
            marks: Marks::from(self.marks),
        }
    }

    /// The number that the next message gets.
    pub(crate) fn next(&self) -> u32
        ensures { result ≡ next_number (seen_state self.now) }
    {
        self.base + self.slots.len() as u32
    }

    /// Puts a slot in the place of the one that the number names.
    pub(crate) fn put_slot(&mut self, number: u32, slot: Slot)
        requires low { self.old.base ≤ number }
        requires inside { number - self.old.base < length self.old.slots.items }
        ensures { seen_state self.new ≡ with_slot (seen_state self.old) number (owned_slot slot) }
    {
        let place = (number - self.base) as usize;
        set_slot(&mut self.slots, place, slot);
    }

    /// Writes these fields into the header of the message that the number names.
    pub(crate) fn put_head(&mut self, number: u32, head: Head)
        requires low { self.old.base ≤ number }
        requires inside { number - self.old.base < length self.old.slots.items }
        ensures { (message : Message) → HasAt self.old number message → seen_state self.new
            ≡ with_slot (seen_state self.old) number (live_message (with_head head (owned message))) }
    {
        let place = (number - self.base) as usize;
        set_head(&mut self.slots, place, head);
    }

    /// Counts a change: modcounter is one more, and activemsgs the number of live messages.
    pub(crate) fn count(&mut self)
        ensures { seen_state self.new ≡ counted (seen_state self.old) }
    {
        self.counter = self.counter.wrapping_add(1);
        self.active = live_messages(&self.slots) as u32;
    }
}
