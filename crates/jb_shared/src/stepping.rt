//! A pack by steps: its texts are copied in turns of their own, and the calls of others go in between.
ghost use Rattle.std.specs.Prelude.{◌≡◌, ◌<◌, ◌≤◌, ◌+◌, ◌*◌, ◌/◌, ◌^◌, IfOk, IfSome, IsTrue, is_some, length};
ghost use Rattle.jb_area.specs.Area.{HasDoubt, loaded_of};
ghost use Rattle.jb_area.specs.Calls.{HasRest};
ghost use Rattle.jb_limits.specs.declared.limits.TheConstants.{MOST_ENTRIES};
ghost use Rattle.jb_pack.specs.declared.run.TheConstants.{PACK_STEP_BYTES};
ghost use Rattle.jb_state.specs.Packed.{slot_text_size, texts_size};
ghost use Rattle.jb_turn.specs.Seats.{id_of, resting_row, resting_turn, row_of};
ghost use Rattle.jb_shared.specs.InTurn.{IsOut, LeavesInTurn};
ghost use Rattle.jb_shared.specs.Inside.{known_in};
ghost use Rattle.jb_shared.specs.Keeping.{IsKept, IsKeptSettled};
ghost use Rattle.jb_shared.specs.Calls.{AreLast, AreSteps};
ghost use Rattle.jb_shared.specs.Stepping.{CopiesOnePart, LeavesAs, RunsStep, StepsAs, StepsOn};

use crate::call::Call;
use crate::entering::{Entered, leave, leave_stepped};
use crate::noting::{Noted, note};
use crate::parts::Parts;
use crate::shared::{AreaSeat, AreaTurn};
use crate::shown::ShownArea;
use crate::{SharedArea, SharedError};
use jb_area::{AreaError, OpenArea, PACK_STEP_BYTES};
use jb_base::{MOST_ENTRIES, User};
use jb_disk::Disk;
use jb_model::Command;
use jb_state::LoadedSlot;
use jb_turn::Held;
use std::alloc::Global;
use std::marker::Brand;
use std::sync::Wait;

/// How many bytes the text of a live message has; none where no live one stands.
fn text_len(slot: &LoadedSlot) -> u32
    ensures { result ≡ slot_text_size slot.now }
{
    match slot {
        LoadedSlot::Empty => 0,
        LoadedSlot::Killed { .. } => 0,
        LoadedSlot::Live(message) => message.text_len,
    }
}

/// How many bytes the texts of the live messages have.
fn text_bytes(slots: &[LoadedSlot]) -> u64
    requires { texts_size slots.now < 2 ^ 64 }
    ensures { result ≡ texts_size slots.now }
{
    let mut bytes: u64 = 0;
    for slot in slots {
        bytes += text_len(slot) as u64;
    }
    bytes
}

/// How many bytes the texts of the area have, where one of them is left to copy.
fn bytes_where_left<D: Disk>(area: &OpenArea<D>, more: bool) -> Option<u64>
    requires { texts_size (loaded_of area.now).slots < 2 ^ 64 }
    ensures some { is_some result ≡ more }
    ensures bytes { IfSome result (λ bytes. bytes ≡ texts_size (loaded_of area.now).slots) }
{
    if more {
        Some(text_bytes(area.loaded().slots.as_slice()))
    } else {
        None
    }
}

/// In how many turns behind the first one texts of so many bytes are copied where nobody posts meanwhile. Two turns copy more than
/// `PACK_STEP_BYTES` together, since the second begins with the text that had no place in the first.
fn turns_behind(bytes: u64) -> u64
    ensures { result ≡ 2 * (bytes / PACK_STEP_BYTES) + 1 }
{
    2 * (bytes / PACK_STEP_BYTES as u64) + 1
}

/// Whether texts may be copied in this turn. Where the history is spent or the area in doubt, the call itself says so.
fn may_step<D: Disk>(held: &Held<ShownArea<D>>) -> bool
    ensures room { IsTrue result → held.now.count < MOST_ENTRIES }
    ensures settled { IsTrue result → HasDoubt D.device held.now.state.area → ⊥ }

    // Where neither bars it, it may.
    ensures may { held.now.count < MOST_ENTRIES → HasRest D.device held.now.state.area → IsTrue result }
{
    held.count < MOST_ENTRIES && !held.state.area.in_doubt()
}

/// Copies a part of the texts of the area at rest, `PACK_STEP_BYTES` at most, and answers whether one is left, with the bytes of all.
/// Where the device fails, the pack is recorded as stopped; want of memory leaves no entry.
fn copy_part<D: Disk>(
    alloc: Global,
    turn: &AreaTurn<D>,
    seat: &mut AreaSeat<D>,
    held: Held<ShownArea<D>>,
    user: &User,
    moment: u32,
) -> (Held<ShownArea<D>>, Result<Option<u64>, SharedError>)
    requires out { IsOut (IsKeptSettled D.device) turn.now seat.old held × (held.count < MOST_ENTRIES) }
    ensures out { IsOut (IsKept D.device) turn.now seat.new result.0 }
    ensures steps { RunsStep (row_of seat.old) (row_of seat.new) user.now moment result.1 }
    ensures copied { IfOk result.1 (λ left.
        CopiesOnePart held.state.area result.0.state.area (is_some left)) }

    ensures left { IfOk result.1 (λ left. LeavesAs D.device result.0 user.now left) }
    ensures crash { LeavesInTurn D.device held.state.area result.0.state.area (row_of seat.old) (row_of seat.new) }
{
    let mut held = held;
    match held.state.area.pack_some(alloc, user, PACK_STEP_BYTES) {
        Ok(more) => {
            let left = bytes_where_left(&held.state.area, more);
            (held, Ok(left))
        }
        Err(AreaError::StoreFault) => {
            let pack = Command::Pack;
            let call = Call {
                user,
                moment,
                command: &pack,
            };
            note::<D, Brand>(turn, seat, &mut held, Noted::InDoubt { call });
            (held, Err(SharedError::StoreFault))
        }
        Err(AreaError::OutOfMemory) => (held, Err(SharedError::OutOfMemory)),
    }
}

impl<D: Disk> SharedArea<D> {
    /// One step of a pack, in a turn of its own. It answers whether there is another one, with the bytes of all texts.
    fn step<R: Wait>(
        &self,
        rt: &R,
        alloc: Global,
        parts: Parts,
        user: &User,
        moment: u32,
    ) -> (Parts, Result<Option<u64>, SharedError>)
        requires ours { resting_turn parts.seat ≡ id_of self.now.turn }
        ensures ours { resting_turn result.0.seat ≡ id_of self.now.turn }
        ensures mark { (resting_row result.0.seat).opening ≡ (resting_row parts.seat).opening }
        ensures steps { StepsAs (known_in parts) (known_in result.0) user.now moment result.1 }
    {
        let Entered {
            mut seat,
            held,
            reader,
        } = self.enter(rt, parts);
        if !may_step(&held) {
            return (
                leave_stepped(&self.turn, seat, held, reader, user, None),
                Ok(None),
            );
        }
        let (held, left) = copy_part(alloc, &self.turn, &mut seat, held, user, moment);
        match left {
            Ok(left) => (
                leave_stepped(&self.turn, seat, held, reader, user, left),
                Ok(left),
            ),
            Err(error) => (
                leave(&self.turn, seat, held, reader, user, None),
                Err(error),
            ),
        }
    }

    /// The steps of a pack behind the first one, so many at most.
    fn step_on<R: Wait>(
        &self,
        rt: &R,
        alloc: Global,
        parts: Parts,
        user: &User,
        moment: u32,
        most: u64,
    ) -> (Parts, Result<(), SharedError>)
        requires ours { resting_turn parts.seat ≡ id_of self.now.turn }
        ensures ours { resting_turn result.0.seat ≡ id_of self.now.turn }
        ensures mark { (resting_row result.0.seat).opening ≡ (resting_row parts.seat).opening }
        ensures steps { StepsOn (AreLast most) (known_in parts) (known_in result.0) user.now moment result.1 }
    {
        let mut parts = parts;
        for _ in 0..most {
            let (next, left) = self.step(rt, alloc, parts, user, moment);
            parts = next;
            match left {
                Ok(more) => match more {
                    Some(_bytes) => {}
                    None => return (parts, Ok(())),
                },
                Err(error) => return (parts, Err(error)),
            }
        }
        (parts, Ok(()))
    }

    /// The steps of a pack, each in a turn of its own, until no text is left, or none may be copied, or so many turns were taken
    /// as the texts at the first of them may want. `Ok` leaves the pack itself to be done.
    pub(crate) fn copy_by_steps<R: Wait>(
        &self,
        rt: &R,
        alloc: Global,
        parts: Parts,
        user: &User,
        moment: u32,
    ) -> (Parts, Result<(), SharedError>)
        requires ours { resting_turn parts.seat ≡ id_of self.now.turn }
        ensures ours { resting_turn result.0.seat ≡ id_of self.now.turn }
        ensures mark { (resting_row result.0.seat).opening ≡ (resting_row parts.seat).opening }
        ensures steps { StepsOn AreSteps (known_in parts) (known_in result.0) user.now moment result.1 }
    {
        let (parts, left) = self.step(rt, alloc, parts, user, moment);
        match left {
            Ok(more) => match more {
                Some(bytes) => {
                    let most = turns_behind(bytes);
                    self.step_on(rt, alloc, parts, user, moment, most)
                }
                None => (parts, Ok(())),
            },
            Err(error) => (parts, Err(error)),
        }
    }
}
