//! An index of marks that stand elsewhere.
ghost use Rattle.std.specs.Prelude.{◌≡◌, ◌+◌, ◌<◌, ◌≤◌, [], ◌∷◌, ◌++◌, length, IfOk, OnOk, OnErr};
ghost use Rattle.jb_limits.specs.declared.limits.TheConstants.{MOST_MARKS};
ghost use Rattle.jb_state.specs.Marks.{mark_of};
ghost use Rattle.jb_marks.specs.Order.{IsOrdered};
ghost use Rattle.jb_state.specs.Places.{HasNone, IsPlaceOf};

use crate::order::{ordered_places, refill, search};
use jb_base::OutOfMemory;
use jb_state::Mark;
use std::alloc::Global;
use std::marker::Model;

/// The places of marks that stand elsewhere, in the order of their users, and room for so many: the marks are given with
/// each call, and are those that the index was made of, with what was set in them since. They are at most 65,000.
#[derive(Drop)]
pub struct MarkIndex {
    order: Vec<u32>,
}

impl Model for MarkIndex {
    ghost use Rattle.jb_marks.specs.Store.{MarkOrder};

    ghost Value = { MarkOrder };

    ghost use Rattle.jb_marks.specs.Indexed.{order_of, AreFew};

    ghost view = { order_of };

    ghost invariant = { AreFew };
}

impl MarkIndex {
    /// The index of these marks. Its cost is that of sorting their places.
    pub fn of(alloc: Global, marks: &[Mark]) -> Result<MarkIndex, OutOfMemory>
        requires { length marks.now ≤ MOST_MARKS }
        ensures ordered { IfOk result (λ index. IsOrdered marks.now index.order) }
        ensures room { IfOk result (λ index. length marks.now ≤ index.room) }
    {
        let order = ordered_places(alloc, marks)?;
        Ok(MarkIndex { order })
    }

    /// The first mark of the user with this `jam_crc` of the name and this number.
    pub fn find(&self, marks: &[Mark], user_crc: u32, user_id: u32) -> Option<Mark>
        requires { IsOrdered marks.now self.now.order }
        ensures { result ≡ mark_of user_crc user_id marks.now }
    {
        match search(marks, &self.order, user_crc, user_id) {
            Ok(place) => Some(marks[place]),
            Err(_) => None,
        }
    }

    /// The place of that mark among the others, from 0.
    pub fn place_of(&self, marks: &[Mark], user_crc: u32, user_id: u32) -> Option<usize>
        requires { IsOrdered marks.now self.now.order }
        ensures { IsPlaceOf user_crc user_id marks.now result }
    {
        search(marks, &self.order, user_crc, user_id).ok()
    }

    /// Takes in a mark of a new pair, which is to be put behind these. It takes no memory.
    pub fn add(&mut self, marks: &[Mark], mark: Mark)
        requires ordered { IsOrdered marks.now self.old.order }
        requires none { HasNone mark.user_crc mark.user_id marks.now }
        requires few { length marks.now < MOST_MARKS }
        requires room { length marks.now < self.old.room }
        ensures ordered { IsOrdered (marks.now ++ mark ∷ []) self.new.order }
        ensures room { self.old.room ≤ self.new.room }
    {
        let Err(at) = search(marks, &self.order, mark.user_crc, mark.user_id) else {
            unreachable!()
        };
        let Ok(()) = self.order.insert(at, marks.len() as u32) else {
            unreachable!()
        };
    }

    /// Has the places of another in the place of its own, in the room that there is. It takes no memory and sorts nothing.
    pub fn replace(&mut self, other: &MarkIndex)
        requires { length other.now.order ≤ self.old.room }
        ensures order { self.new.order ≡ other.now.order }
        ensures room { self.old.room ≤ self.new.room }
    {
        refill(&mut self.order, &other.order);
    }

    /// Makes room for so many places more, where there is less.
    pub fn reserve(&mut self, more: u32) -> Result<(), OutOfMemory>
        ensures order { self.new.order ≡ self.old.order }
        ensures ok { OnOk result (length self.new.order + more ≤ self.new.room) }
        ensures room { self.old.room ≤ self.new.room }
        ensures err { OnErr result (self.new.room ≡ self.old.room) }
    {
        self.order.reserve(more as usize)?;
        Ok(())
    }
}
