//! Parts of an open area that are put in the place of others, which are dropped here alone.
ghost use Rattle.std.specs.Prelude.{◌≡◌, None};
ghost use Rattle.jb_held.specs.Pending.{no_room};
ghost use Rattle.jb_state.specs.declared.change.Change.TheVariants.{Nothing};

use crate::stage::Stage;
use jb_disk::Redo;
use jb_held::{Pending, Room};
use jb_pack::Packer;
use jb_state::Change;
use std::mem;

/// This stage, in place of the one before.
pub(crate) fn put_stage(place: &mut Stage, stage: Stage)
    ensures { place.new ≡ stage }
{
    drop_stage(mem::replace(place, stage));
}

/// The redo of a call, in place of the one before.
pub(crate) fn put_redo(place: &mut Option<Redo>, redo: Option<Redo>)
    ensures { place.new ≡ redo }
{
    *place = redo;
}

/// Drops what a call took, and what was copied of the texts.
pub(crate) fn drop_both(large: &mut Option<Redo>, packer: &mut Option<Packer>)
    ensures large { large.new ≡ None }
    ensures packer { packer.new ≡ None }
{
    *large = None;
    *packer = None;
}

/// What a call without a change has pending.
pub(crate) fn nothing_pending() -> Pending
    ensures { result ≡ record { change = Nothing; room = no_room } }
{
    Pending {
        change: Change::Nothing,
        room: Room::none(),
    }
}

/// Drops a stage.
pub(crate) fn drop_stage(_stage: Stage) {}

/// Drops what a call would have changed.
pub(crate) fn drop_pending(_pending: Pending) {}
