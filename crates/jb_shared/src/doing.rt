//! A command on the area, with what it changes in the index.
ghost use Rattle.std.specs.Prelude.{◌≡◌, ◌≤◌, Err, length, OnErr, OnOk};
ghost use Rattle.jb_area.specs.Area.{HasBegun};
ghost use Rattle.jb_area.specs.Calls.{EndsCall, HasRest, MeetsCall};
ghost use Rattle.jb_decide.specs.Errors.{is_area_fault};
ghost use Rattle.jb_limits.specs.declared.limits.TheConstants.{MOST_NAME_BYTES};
ghost use Rattle.jb_shared.specs.Keeping.{FollowsCommand, HasChange, LeavesAsIs};

use crate::call::Call;
use crate::change::IndexChange;
use crate::changing::change_of;
use jb_area::{AreaError, OpenArea};
use jb_disk::Disk;
use jb_model::Reply;
use std::alloc::Global;

/// Finishes the call that is begun.
fn finish<D: Disk>(area: &mut OpenArea<D>) -> Result<Reply, AreaError>
    requires begun { HasBegun D.device area.old }
    ensures { EndsCall D.device is_area_fault area.old area.new result }
{
    match area.finish() {
        Ok(reply) => Ok(reply),
        Err(_stopped) => Err(AreaError::StoreFault),
    }
}

/// Does a command on the area at rest. `change` is then what it has changed in the index, or, where the device stopped it, what it
/// changes if its change stands. It is made before the change is committed, so that want of memory leaves the area as it was.
pub(crate) fn run<D: Disk>(
    alloc: Global,
    area: &mut OpenArea<D>,
    call: Call<'_>,
    change: &mut IndexChange,
) -> Result<Reply, AreaError>
    requires rests { HasRest D.device area.old }
    requires name { length call.user.now.name ≤ MOST_NAME_BYTES }
    ensures meets { MeetsCall D.device area.old area.new call.entry.user.now call.entry.moment
        call.entry.command.now result }
    ensures done { OnOk result (FollowsCommand D.device area.old call.entry.user.now call.entry.moment
        call.entry.command.now change.new.op) }
    ensures doubted { OnErr result (HasChange D.device area.new
        → FollowsCommand D.device area.old call.entry.user.now call.entry.moment call.entry.command.now
        change.new.op) }
    ensures wanting { result ≡ Err AreaError.OutOfMemory → LeavesAsIs D.device area.old area.new }
{
    match area.begin(alloc, call.user, call.moment, call.command) {
        Ok(()) => {
            let Ok(made) = change_of(alloc, area) else {
                area.abandon();
                return Err(AreaError::OutOfMemory);
            };
            *change = made;
            finish(area)
        }
        Err(error) => Err(error),
    }
}
