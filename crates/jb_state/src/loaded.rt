//! An area as it is loaded: all of its state but the texts, with the places of headers and texts.
ghost use Rattle.std.specs.Prelude.{◌≡◌, ◌<◌, ◌≤◌, [], ◌∷◌, ◌++◌, drop, length, slice_index_or, slice_set, IfOk, OnOk, OnErr};
ghost use Rattle.jb_state.specs.Loaded.{slot_moved_to, slot_with_head};
ghost use Rattle.jb_state.specs.Room.{HasPlaceBeside};
ghost use Rattle.jb_state.specs.declared.loaded.LoadedSlot.{LoadedSlot};

use crate::room::{make_place, move_where_full};
use crate::{Head, LoadedMarks, SlotRoom};
use jb_base::{OutOfMemory, Subfields};
use std::alloc::Global;
use std::marker::Model;

/// Places of an area that is not loaded yet.
const FIRST_PLACES: usize = 512;

/// A live message: the UserCRC of its index record, its header and subfields, the place of its header in .JHR, and the
/// place and length of its text in .JDT, in bytes.
#[derive(Debug)]
pub struct LoadedMessage {
    pub owner: u32,
    pub head: Head,
    pub subfields: Subfields,
    pub header_at: u32,
    pub text_at: u32,
    pub text_len: u32,
}

// Whoever lets go of one does so in one call.
impl Drop for LoadedMessage {
    fn drop(self) {
        let LoadedMessage {
            owner: _owner,
            head: _head,
            subfields: _subfields,
            header_at: _header_at,
            text_at: _text_at,
            text_len: _text_len,
        } = self;
    }
}

/// What a number of the area names: nothing, a killed message, of which only the place of its header is known, or a live
/// one.
#[derive(Debug)]
pub enum LoadedSlot {
    Empty,
    Killed { header_at: u32 },
    Live(LoadedMessage),
}

// Whoever lets go of one does so in one call.
impl Drop for LoadedSlot {
    fn drop(self) {
        match self {
            LoadedSlot::Empty => {}
            LoadedSlot::Killed {
                header_at: _header_at,
            } => {}
            LoadedSlot::Live(_held) => {}
        }
    }
}

/// The slots of an area; the slot at place i has the number base plus i. Contracts see the list of them. There are places for as
/// many as a power of two, so whether none may be free is known by their number, and who puts one more there brings more places
/// then.
#[derive(Drop)]
pub struct LoadedSlots {
    items: Vec<LoadedSlot>,
}

impl Model for LoadedSlots {
    ghost use Rattle.std.specs.Prelude.{List, length, vec_capacity};
    ghost use Rattle.jb_state.specs.Room.{HasPlaces};
    ghost use Rattle.jb_state.specs.declared.loaded.LoadedSlot.{LoadedSlot};

    ghost Value = { List LoadedSlot };

    ghost view = { λ s. s.items.items };

    ghost invariant = { λ s. HasPlaces (length s.items.items) (vec_capacity s.items) };
}

impl LoadedSlots {
    /// None yet.
    pub fn new(alloc: Global) -> Result<LoadedSlots, OutOfMemory>
        ensures { IfOk result (λ slots. slots ≡ []) }
    {
        let items = Vec::with_capacity(alloc, FIRST_PLACES)?;
        Ok(LoadedSlots { items })
    }

    /// The slots, in the order of their numbers.
    pub fn as_slice(&self) -> &[LoadedSlot]
        ensures { result.now ≡ self.now }
    {
        self.items.as_slice()
    }

    /// Puts one behind the others, or for want of memory leaves all as it was.
    pub fn push(&mut self, slot: LoadedSlot) -> Result<(), OutOfMemory>
        ensures ok { OnOk result (self.new ≡ self.old ++ slot ∷ []) }
        ensures err { OnErr result (self.new ≡ self.old) }
    {
        make_place(&mut self.items)?;
        self.items.push_reserved(slot);
        Ok(())
    }

    /// Puts one behind the others. It takes no memory: where no place may be free, all move into this room,
    /// which has more.
    pub fn push_with(&mut self, slot: LoadedSlot, wider: Option<SlotRoom>)
        requires { HasPlaceBeside (length self.old) wider }
        ensures { self.new ≡ self.old ++ slot ∷ [] }
    {
        move_where_full(&mut self.items, wider);
        self.items.push_reserved(slot);
    }

    /// Puts another slot in the place of one.
    pub fn set(&mut self, place: usize, slot: LoadedSlot)
        requires { place < length self.old }
        ensures { self.new ≡ slice_set self.old place slot }
    {
        self.items[place] = slot;
    }

    /// Writes these fields into the header of the live message at a place; another slot it leaves as it is.
    pub fn set_head(&mut self, place: usize, head: Head)
        requires { place < length self.old }
        ensures { (d : LoadedSlot) → self.new
            ≡ slice_set self.old place (slot_with_head head (slice_index_or self.old place d)) }
    {
        if let LoadedSlot::Live(message) = &mut self.items[place] {
            message.head = head;
        }
    }

    /// Writes these fields into the header of the live message at a place, and says where its header and its text stand
    /// now; another slot it leaves as it is.
    pub fn set_place(&mut self, place: usize, head: Head, header_at: u32, text_at: u32)
        requires { place < length self.old }
        ensures { (d : LoadedSlot) → self.new ≡ slice_set self.old place
            (slot_moved_to head header_at text_at (slice_index_or self.old place d)) }
    {
        if let LoadedSlot::Live(message) = &mut self.items[place] {
            message.head = head;
            message.header_at = header_at;
            message.text_at = text_at;
        }
    }

    /// Drops so many of the first slots. The others move down, and the room stays.
    pub fn drop_first(&mut self, count: usize)
        requires { count ≤ length self.old }
        ensures { self.new ≡ drop count self.old }
    {
        let kept = self.items.len() - count;
        self.items.rotate_left(count);
        self.items.truncate(kept);
    }
}

/// An area without its texts: the fields of the fixed header (datecreated, modcounter, activemsgs, passwordcrc, the
/// reserved bytes, basemsgnum), the slots, the marks, and the lengths of .JHR and .JDT in bytes.
pub struct Loaded {
    pub created: u32,
    pub counter: u32,
    pub active: u32,
    pub password: u32,
    pub reserved: [u8; 1000],
    pub base: u32,
    pub slots: LoadedSlots,
    pub marks: LoadedMarks,
    pub headers_len: u64,
    pub texts_len: u64,
}

// Whoever lets go of one does so in one call.
impl Drop for Loaded {
    fn drop(self) {
        let Loaded {
            created: _created,
            counter: _counter,
            active: _active,
            password: _password,
            reserved: _reserved,
            base: _base,
            slots: _slots,
            marks: _marks,
            headers_len: _headers_len,
            texts_len: _texts_len,
        } = self;
    }
}
