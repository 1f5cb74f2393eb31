//! The marks, their index and the room.
ghost use Rattle.std.specs.Prelude.{◌≡◌, ◌+◌, ◌<◌, ◌≤◌, ◌⊎◌, [], ◌∷◌, ◌++◌, length, max, IfOk, OnOk, OnErr, IsSome, Some};
ghost use Rattle.jb_limits.specs.declared.limits.TheConstants.{MOST_MARKS};
ghost use Rattle.jb_state.specs.Marks.{mark_of, with_mark};
ghost use Rattle.jb_state.specs.Places.{FindOthersAlike, HasNone, IsPlaceOf};

use crate::index::MarkIndex;
use crate::order::refill;
use jb_base::OutOfMemory;
use jb_state::Mark;
use std::alloc::Global;
use std::marker::Model;

/// Marks in the order of the lastread file, and room for so many more; with the room they are at most 65,000. A base
/// from elsewhere may hold several marks of one pair.
#[derive(Drop)]
pub struct Marks {
    items: Vec<Mark>,
    index: MarkIndex,
    room: u32,
}

impl Model for Marks {
    ghost use Rattle.jb_marks.specs.Store.{MarkStore};

    ghost Value = { MarkStore };

    ghost use Rattle.jb_marks.specs.Kept.{store_of, IsIndexed};

    ghost view = { store_of };

    ghost invariant = { IsIndexed };
}

impl Marks {
    /// These marks, with no room for more.
    pub fn copy(alloc: Global, from: &[Mark]) -> Result<Marks, OutOfMemory>
        requires { length from.now ≤ MOST_MARKS }
        ensures { IfOk result (λ copy. (copy.marks ≡ from.now) × (copy.room ≡ 0)) }
    {
        let items = Vec::from_slice(alloc, from)?;
        let index = MarkIndex::of(alloc, from)?;
        Ok(Marks {
            items,
            index,
            room: 0,
        })
    }

    /// The marks, in order.
    pub fn as_slice(&self) -> &[Mark]
        ensures { result.now ≡ self.now.marks }
    {
        self.items.as_slice()
    }

    /// The first mark of the user with this `jam_crc` of the name and this number.
    pub fn find(&self, user_crc: u32, user_id: u32) -> Option<Mark>
        ensures { result ≡ mark_of user_crc user_id self.now.marks }
    {
        self.index.find(&self.items, user_crc, user_id)
    }

    /// The place of that mark among the others, from 0: its record begins at 16 times the place in .JLR.
    pub fn place_of(&self, user_crc: u32, user_id: u32) -> Option<usize>
        ensures { IsPlaceOf user_crc user_id self.now.marks result }
    {
        self.index.place_of(&self.items, user_crc, user_id)
    }

    /// Puts a mark in the place of the first one of its pair, or last where the pair has none. It takes no memory.
    pub fn set(&mut self, mark: Mark)
        requires { IsSome (mark_of mark.user_crc mark.user_id self.old.marks) ⊎ (0 < self.old.room) }
        ensures marks { self.new.marks ≡ with_mark mark self.old.marks }

        // Its user finds it then, and every other finds what was there.
        ensures own { mark_of mark.user_crc mark.user_id self.new.marks ≡ Some mark }
        ensures others { FindOthersAlike mark self.old.marks self.new.marks }

        // One that is put last takes up room.
        ensures room { length self.new.marks + self.new.room ≡ length self.old.marks + self.old.room }
    {
        match self
            .index
            .place_of(&self.items, mark.user_crc, mark.user_id)
        {
            Some(place) => self.items[place] = mark,
            None => self.put_last(mark),
        }
    }

    /// Puts a mark of a new pair last.
    fn put_last(&mut self, mark: Mark)
        requires none { HasNone mark.user_crc mark.user_id self.old.marks }
        requires room { 0 < self.old.room }
        ensures marks { self.new.marks ≡ self.old.marks ++ mark ∷ [] }
        ensures room { length self.new.marks + self.new.room ≡ length self.old.marks + self.old.room }
    {
        self.index.add(&self.items, mark);
        self.items.push_reserved(mark);
        self.room -= 1;
    }

    /// Has the marks of another in the place of its own, in the room that there is. It takes no memory and sorts nothing.
    pub fn replace(&mut self, other: &Marks)
        requires { length other.now.marks ≤ length self.old.marks + self.old.room }
        ensures marks { self.new.marks ≡ other.now.marks }
        ensures room { length self.new.marks + self.new.room ≡ length self.old.marks + self.old.room }
    {
        let places = self.items.len() as u32 + self.room;
        refill(&mut self.items, &other.items);
        self.index.replace(&other.index);
        self.room = places - other.items.len() as u32;
    }

    /// Makes room for so many marks more, where there is less.
    pub fn reserve(&mut self, more: u32) -> Result<(), OutOfMemory>
        requires { length self.old.marks + more ≤ MOST_MARKS }
        ensures marks { self.new.marks ≡ self.old.marks }
        ensures ok { OnOk result (self.new.room ≡ max self.old.room more) }
        ensures err { OnErr result (self.new.room ≡ self.old.room) }
    {
        self.items.reserve(more as usize)?;
        self.index.reserve(more)?;
        self.room = self.room.max(more);
        Ok(())
    }
}
