//! Calls: the turn is taken, a doubt is ended, the command is done, and what came of it is recorded and shown.
ghost use Rattle.std.specs.Prelude.{◌≡◌, ◌<◌, ◌≤◌, Bool, Option, Some, length, IfErr, OnErr, OnOk};
ghost use Rattle.jb_limits.specs.declared.limits.TheConstants.{MOST_ENTRIES, MOST_NAME_BYTES};
ghost use Rattle.jb_turn.specs.Seats.{row_of};
ghost use Rattle.jb_shared.specs.Calls.{IsStoppedCall, Performs, Runs, ending};
ghost use Rattle.jb_shared.specs.InTurn.{IsOut, Leads, LeavesInTurn, next_call};
ghost use Rattle.jb_shared.specs.Keeping.{IsKept, IsKeptInDoubt, IsKeptSettled};

use crate::call::Call;
use crate::noting::{Noted, note};
use crate::shared::{AreaSeat, AreaTurn};
use crate::showing::show;
use crate::shown::ShownArea;
use crate::{SharedError, doing};
use jb_area::AreaError;
use jb_disk::Disk;
use jb_model::Reply;
use jb_turn::Held;
use std::alloc::Global;
use std::marker::Brand;
use std::sync::Wait;

/// Ends the doubt of the area, records how, and shows that; where the device fails in it, the call is recorded as not begun.
fn end_doubt<D: Disk, R: Wait>(
    rt: &R,
    alloc: Global,
    turn: &AreaTurn<D>,
    seat: &mut AreaSeat<D>,
    mut held: Held<ShownArea<D>>,
    call: Call<'_>,
) -> (Held<ShownArea<D>>, Result<(), SharedError>)
    requires out { IsOut (IsKeptInDoubt D.device) turn.now seat.old held × (held.count < MOST_ENTRIES) }
    ensures ok { OnOk result.1 (IsOut (IsKeptSettled D.device) turn.now seat.new result.0
        × (result.0.count ≤ MOST_ENTRIES)) }
    ensures out { OnErr result.1 (IsOut (IsKept D.device) turn.now seat.new result.0) }
    ensures ended { OnOk result.1 ((stands : Bool)
        × Leads (λ old new. new ≡ ending old (Some stands)) (row_of seat.old) (row_of seat.new)) }
    ensures err { IfErr result.1 (λ error. (error ≡ SharedError.StoreFault)
        × Leads (λ old new. IsStoppedCall old new call.entry.user.now call.entry.moment
        call.entry.command.now) (row_of seat.old) (row_of seat.new)) }
    ensures crash { LeavesInTurn D.device held.state.area result.0.state.area (row_of seat.old) (row_of seat.new) }
{
    match held.state.area.reopen() {
        Ok(stands) => {
            note::<D, Brand>(turn, seat, &mut held, Noted::Reopened { stands });
            (show(rt, alloc, seat, held, stands), Ok(()))
        }
        Err(_stopped) => {
            note::<D, Brand>(turn, seat, &mut held, Noted::NotBegun { call });
            (held, Err(SharedError::StoreFault))
        }
    }
}

/// Ends the doubt of the area, where it is in doubt.
fn settle<D: Disk, R: Wait>(
    rt: &R,
    alloc: Global,
    turn: &AreaTurn<D>,
    seat: &mut AreaSeat<D>,
    held: Held<ShownArea<D>>,
    call: Call<'_>,
) -> (Held<ShownArea<D>>, Result<(), SharedError>)
    requires out { IsOut (IsKept D.device) turn.now seat.old held × (held.count < MOST_ENTRIES) }
    ensures ok { OnOk result.1 (IsOut (IsKeptSettled D.device) turn.now seat.new result.0
        × (result.0.count ≤ MOST_ENTRIES)) }
    ensures out { OnErr result.1 (IsOut (IsKept D.device) turn.now seat.new result.0) }
    ensures ended { OnOk result.1 ((ended : Option Bool)
        × Leads (λ old new. new ≡ ending old ended) (row_of seat.old) (row_of seat.new)) }
    ensures err { IfErr result.1 (λ error. (error ≡ SharedError.StoreFault)
        × Leads (λ old new. IsStoppedCall old new call.entry.user.now call.entry.moment
        call.entry.command.now) (row_of seat.old) (row_of seat.new)) }
    ensures crash { LeavesInTurn D.device held.state.area result.0.state.area (row_of seat.old) (row_of seat.new) }
{
    if held.state.area.in_doubt() {
        end_doubt(rt, alloc, turn, seat, held, call)
    } else {
        (held, Ok(()))
    }
}

/// Does the command on the area at rest, records what came of it, and shows what was done; want of memory leaves no entry.
fn run<D: Disk, R: Wait>(
    rt: &R,
    alloc: Global,
    turn: &AreaTurn<D>,
    seat: &mut AreaSeat<D>,
    held: Held<ShownArea<D>>,
    call: Call<'_>,
) -> (Held<ShownArea<D>>, Result<Reply, SharedError>)
    requires out { IsOut (IsKeptSettled D.device) turn.now seat.old held × (held.count ≤ MOST_ENTRIES) }
    requires name { length call.user.now.name ≤ MOST_NAME_BYTES }
    ensures out { IsOut (IsKept D.device) turn.now seat.new result.0 }
    ensures runs { Leads (λ old new. Runs old new (next_call (row_of seat.old) call.entry) result.1)
        (row_of seat.old) (row_of seat.new) }
    ensures crash { LeavesInTurn D.device held.state.area result.0.state.area (row_of seat.old) (row_of seat.new) }
{
    let mut held = held;
    let state = &mut held.state;
    match doing::run(alloc, &mut state.area, call, &mut state.doubted) {
        Ok(reply) => {
            let replied = Noted::Replied {
                call,
                reply: &reply,
            };
            note::<D, Brand>(turn, seat, &mut held, replied);
            (show(rt, alloc, seat, held, true), Ok(reply))
        }
        Err(AreaError::StoreFault) => {
            note::<D, Brand>(turn, seat, &mut held, Noted::InDoubt { call });
            (held, Err(SharedError::StoreFault))
        }
        Err(AreaError::OutOfMemory) => (held, Err(SharedError::OutOfMemory)),
    }
}

/// A call while the area is out with the seat.
pub(crate) fn perform<D: Disk, R: Wait>(
    rt: &R,
    alloc: Global,
    turn: &AreaTurn<D>,
    seat: &mut AreaSeat<D>,
    held: Held<ShownArea<D>>,
    call: Call<'_>,
) -> (Held<ShownArea<D>>, Result<Reply, SharedError>)
    requires out { IsOut (IsKept D.device) turn.now seat.old held × (held.count < MOST_ENTRIES) }
    requires name { length call.user.now.name ≤ MOST_NAME_BYTES }
    ensures out { IsOut (IsKept D.device) turn.now seat.new result.0 }
    ensures performs { Leads (λ old new. Performs old new call.entry.user.now call.entry.moment
        call.entry.command.now result.1) (row_of seat.old) (row_of seat.new) }
    ensures crash { LeavesInTurn D.device held.state.area result.0.state.area (row_of seat.old) (row_of seat.new) }
{
    let (held, settled) = settle(rt, alloc, turn, seat, held, call);
    match settled {
        Ok(()) => run(rt, alloc, turn, seat, held, call),
        Err(error) => (held, Err(error)),
    }
}
