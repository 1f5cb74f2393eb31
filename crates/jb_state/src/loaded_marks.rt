//! The marks of a loaded area.
ghost use Rattle.std.specs.Prelude.{◌≡◌, ◌<◌, [], ◌∷◌, ◌++◌, length, slice_set, IfOk, IsOk, OnOk, OnErr};
ghost use Rattle.jb_limits.specs.declared.limits.TheConstants.{MOST_MARKS};

use crate::Mark;
use jb_base::{MOST_MARKS, OutOfMemory};
use std::alloc::Global;
use std::marker::Model;

/// The marks of a loaded area, in the order of the lastread file. Contracts see the list of them. There is always room for
/// as many as an area may have, [`MOST_MARKS`], so that a change of an open area takes no memory; room that was never used
/// costs none.
#[derive(Drop)]
pub struct LoadedMarks {
    items: Vec<Mark>,
}

impl Model for LoadedMarks {
    ghost use Rattle.std.specs.Prelude.{List, ◌≤◌, vec_capacity};
    ghost use Rattle.jb_limits.specs.declared.limits.TheConstants.{MOST_MARKS};
    ghost use Rattle.jb_state.specs.declared.mark.Mark.{Mark};

    ghost Value = { List Mark };

    ghost view = { λ m. m.items.items };

    ghost invariant = { λ m. MOST_MARKS ≤ vec_capacity m.items };
}

impl LoadedMarks {
    /// None yet, and room for all.
    pub fn new(alloc: Global) -> Result<LoadedMarks, OutOfMemory>
        ensures { IfOk result (λ marks. marks ≡ []) }
    {
        let items = Vec::with_capacity(alloc, MOST_MARKS as usize)?;
        Ok(LoadedMarks { items })
    }

    /// The marks, in order.
    pub fn as_slice(&self) -> &[Mark]
        ensures { result.now ≡ self.now }
    {
        self.items.as_slice()
    }

    /// Puts one behind the others, or for want of memory leaves all as it was. Below [`MOST_MARKS`] it takes no memory.
    pub fn push(&mut self, mark: Mark) -> Result<(), OutOfMemory>
        ensures ok { OnOk result (self.new ≡ self.old ++ mark ∷ []) }
        ensures err { OnErr result (self.new ≡ self.old) }
        ensures roomy { length self.old < MOST_MARKS → IsOk result }
    {
        self.items.push(mark)?;
        Ok(())
    }

    /// Puts another mark in the place of one.
    pub fn set(&mut self, place: usize, mark: Mark)
        requires { place < length self.old }
        ensures { self.new ≡ slice_set self.old place mark }
    {
        self.items[place] = mark;
    }
}
