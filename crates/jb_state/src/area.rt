//! An area as a plain value: a base number, a list of slots, and marks.
ghost use Rattle.std.specs.Prelude.{◌≡◌, [], ◌∷◌, ◌++◌, OnOk, OnErr};

use crate::{Head, Marks};
use jb_base::{Bytes, OutOfMemory, Subfields};
use std::alloc::Global;
use std::marker::Model;

/// A message: the fields of its header, its subfields and its text.
pub struct Message {
    pub head: Head,
    pub subfields: Subfields,
    pub text: Bytes,
}

// Whoever lets go of one does so in one call.
impl Drop for Message {
    fn drop(self) {
        let Message {
            head: _head,
            subfields: _subfields,
            text: _text,
        } = self;
    }
}

/// What a number of an area names: nothing, a killed message or a live one.
pub enum Slot {
    Empty,
    Killed,
    Live(Message),
}

// Whoever lets go of one does so in one call.
impl Drop for Slot {
    fn drop(self) {
        match self {
            Slot::Empty => {}
            Slot::Killed => {}
            Slot::Live(_held) => {}
        }
    }
}

/// The slots of an area as a plain value; the slot at place i has the number base plus i. Contracts see the list of them.
#[derive(Drop)]
pub struct Slots {
    items: Vec<Slot>,
}

impl Model for Slots {
    ghost use Rattle.std.specs.Prelude.{List};
    ghost use Rattle.jb_state.specs.declared.area.Slot.{Slot};

    ghost Value = { List Slot };

    ghost view = { λ s. s.items.items };
}

impl Slots {
    /// None yet. It takes no memory.
    pub fn new(alloc: Global) -> Slots
        ensures { result ≡ [] }
    {
        Slots {
            items: Vec::new(alloc),
        }
    }

    /// The slots, in the order of their numbers.
    pub fn as_slice(&self) -> &[Slot]
        ensures { result.now ≡ self.now }
    {
        self.items.as_slice()
    }

    /// Puts one behind the others, or for want of memory leaves all as it was.
    pub fn push(&mut self, slot: Slot) -> Result<(), OutOfMemory>
        ensures ok { OnOk result (self.new ≡ self.old ++ slot ∷ []) }
        ensures err { OnErr result (self.new ≡ self.old) }
    {
        self.items.push(slot)?;
        Ok(())
    }

    /// The slots as a `Vec`. It takes no memory.
    pub fn into_vec(self) -> Vec<Slot>
        ensures { result.items ≡ self }
    {
        self.items
    }
}

impl From<Vec<Slot>> for Slots {
    ghost from_gives = { λ items slots. slots ≡ items.items };

    fn from(items: Vec<Slot>) -> Slots {
        Slots { items }
    }
}

/// An area: the number of its first slot (basemsgnum), its slots and its marks. What its files hold besides (the other
/// fields of the fixed header, dead bytes) is no part of it.
#[derive(Drop)]
pub struct Area {
    pub base: u32,
    pub slots: Slots,
    pub marks: Marks,
}
