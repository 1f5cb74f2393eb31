//! A redo is emptied, and given room for a change.
ghost use Rattle.std.specs.Prelude.{◌≤◌, OnOk};
ghost use Rattle.jb_limits.specs.declared.limits.TheConstants.{MOST_SLOTS};
ghost use Rattle.jb_redo.specs.Changes.{KeepsRoom};
ghost use Rattle.jb_change.specs.Ready.{HasRoomInAll, IsCleared, IsEmptied, IsReadyFor};

use crate::laws::makes_nothing;
use jb_base::{MOST_SLOTS, OutOfMemory};
use jb_disk::Redo;

/// Empties the redo. Its room stays.
pub(crate) fn empty(redo: &mut Redo)
    ensures emptied { IsEmptied redo.new }
    ensures kept { KeepsRoom redo.old redo.new }
{
    redo.clear();
    makes_nothing();
}

/// Empties a redo that has room for each change that takes no memory.
pub(crate) fn clear(redo: &mut Redo)
    requires { HasRoomInAll redo.old }
    ensures cleared { IsCleared redo.new }
    ensures kept { KeepsRoom redo.old redo.new }
{
    empty(redo);
}

/// Gives an emptied redo the room for each change that takes no memory.
pub(crate) fn make_small_room(redo: &mut Redo) -> Result<(), OutOfMemory>
    ensures room { OnOk result (HasRoomInAll redo.new) }
    ensures kept { KeepsRoom redo.old redo.new }
{
    empty(redo);
    redo.reserve(1, 4, 32)?;
    Ok(())
}

/// Empties the redo, and takes the room for the links of so many messages and for the counts. An area has no more
/// messages than it may have slots.
pub(crate) fn make_room(redo: &mut Redo, count: usize) -> Result<(), OutOfMemory>
    ensures few { OnOk result (count ≤ MOST_SLOTS) }
    ensures ready { OnOk result (IsReadyFor count redo.new) }
    ensures kept { KeepsRoom redo.old redo.new }
{
    empty(redo);
    if count > MOST_SLOTS as usize {
        return Err(OutOfMemory);
    }
    redo.reserve(0, count as u32 + 1, 12 * count as u64 + 8)?;
    makes_nothing();
    Ok(())
}
