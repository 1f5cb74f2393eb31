//! A backup of a shared area in turns of its own, between which the calls of others go on.
ghost use Rattle.std.specs.Prelude.{◌≡◌, List, None, Some, length};
ghost use Rattle.jb_model.specs.declared.entry.Entry.{Entry};
ghost use Rattle.jb_publish.specs.Accounts.{account_of, told_with};
ghost use Rattle.jb_turn.specs.Rows.{StandsFrom};
ghost use Rattle.jb_turn.specs.Seats.{HoldsTurn, front, id_of, opening, resting_row, resting_turn, row_of};
ghost use Rattle.jb_turn.specs.Steps.{given};
ghost use Rattle.jb_shared.specs.Areas.{IsOf};
ghost use Rattle.jb_shared.specs.Backing.{CopiesOnto, IsReady};
ghost use Rattle.jb_shared.specs.Backups.{BacksUp, Finishes, FinishesAs, TurnsEnd, told_backed};
ghost use Rattle.jb_shared.specs.Histories.{Tells};
ghost use Rattle.jb_shared.specs.InTurn.{IsBehind, IsOut, IsToldOf};
ghost use Rattle.jb_shared.specs.Inside.{known_in};
ghost use Rattle.jb_shared.specs.Keeping.{IsKept};
ghost use Rattle.jb_shared.specs.Stepping.{HasTaken};
ghost use Rattle.jb_shared.specs.Texts.{text_files_at};
ghost use Rattle.jb_shared.specs.declared.opening.Opening.{Opening};

use crate::backing::Backing;
use crate::entering::Entered;
use crate::parts::Parts;
use crate::published::IndexReader;
use crate::shared::{AreaSeat, AreaTurn};
use crate::showing::inform;
use crate::shown::ShownArea;
use crate::{Backed, Pass, SharedArea};
use jb_backup::{BackupError, PART_BYTES};
use jb_disk::Disk;
use jb_turn::Held;
use std::alloc::Global;
use std::marker::Brand;
use std::sync::Wait;

/// Gives the area back with no remark.
fn put_back<D: Disk>(
    turn: &AreaTurn<D>,
    mut seat: AreaSeat<D>,
    held: Held<ShownArea<D>>,
    reader: IndexReader,
) -> Parts
    requires seat { HoldsTurn turn.now seat held.count }
    requires stands { StandsFrom (IsKept D.device) (opening seat) held.state (front seat) }
    requires told { IsToldOf (row_of seat) (account_of reader) }
    ensures here { resting_turn result.seat ≡ id_of turn.now }
    ensures row { resting_row result.seat ≡ given (row_of seat) None }
    ensures account { account_of result.reader ≡ account_of reader }
{
    turn.give::<Brand>(&mut seat, held);
    let seat = seat.rest();
    Parts { seat, reader }
}

/// The same behind a turn that leaves no entry, once the end that looks has learned all that is shown.
fn give_back<D: Disk>(
    turn: &AreaTurn<D>,
    seat: AreaSeat<D>,
    held: Held<ShownArea<D>>,
    mut reader: IndexReader,
) -> Parts
    requires out { IsOut (IsKept D.device) turn.now seat held }
    requires told { IsBehind (row_of seat) (account_of reader) }
    ensures here { resting_turn result.seat ≡ id_of turn.now }
    ensures row { resting_row result.seat ≡ given (row_of seat) None }
    ensures account { (list : List Entry) × (account_of result.reader ≡ told_with (account_of reader) list) }
{
    inform(&held.state.shower, &mut reader);
    put_back(turn, seat, held, reader)
}

/// The answer of a last turn, by how many entries the history has and how many messages are live.
fn backed_with(entries: u64, finished: Result<u32, BackupError>) -> Result<Backed, BackupError>
    ensures { result ≡ told_backed entries finished }
{
    let live = finished?;
    Ok(Backed { entries, live })
}

impl<D: Disk> SharedArea<D> {
    /// How many bytes the texts of the area have, in a turn of its own.
    fn texts_len<R: Wait>(&self, rt: &R, parts: Parts) -> (Parts, u64)
        requires ours { resting_turn parts.seat ≡ id_of self.now.turn }
        ensures ours { resting_turn result.0.seat ≡ id_of self.now.turn }
        ensures mark { (resting_row result.0.seat).opening ≡ (resting_row parts.seat).opening }
        ensures taken { HasTaken (known_in parts) (known_in result.0) }

        // In doubt it is how many they have if its change falls.
        ensures len { (opening : Opening) → (known_in parts).opening ≡ Some opening → Tells opening
            → result.1 ≡ length (text_files_at opening (known_in result.0).front).now.bytes }
    {
        let Entered { seat, held, reader } = self.enter(rt, parts);
        let len = held.state.area.loaded().texts_len;
        (give_back(&self.turn, seat, held, reader), len)
    }

    /// Copies a part of the texts below an end, in a turn of its own, and answers whether some are left there.
    fn copy_some<R: Wait, E: Disk>(
        &self,
        rt: &R,
        parts: Parts,
        backing: &mut Backing,
        onto: &mut E,
        end: u64,
    ) -> (Parts, Result<bool, BackupError>)
        requires ours { resting_turn parts.seat ≡ id_of self.now.turn }
        requires ready { IsReady (known_in parts) backing.old (E.device onto.old) }
        ensures ours { resting_turn result.0.seat ≡ id_of self.now.turn }
        ensures mark { (resting_row result.0.seat).opening ≡ (resting_row parts.seat).opening }
        ensures copies { CopiesOnto (known_in parts) (known_in result.0) backing.new (E.device onto.old)
            (E.device onto.new) result.1 }
    {
        let Entered {
            seat,
            mut held,
            reader,
        } = self.enter(rt, parts);
        let copied = backing.copy_some(&mut held.state.area, onto, end);
        (give_back(&self.turn, seat, held, reader), copied)
    }

    /// Copies the texts below an end by parts, each in a turn of its own: in as many turns as there are parts, or until none is left.
    fn copy_texts<R: Wait, E: Disk>(
        &self,
        rt: &R,
        parts: Parts,
        backing: &mut Backing,
        onto: &mut E,
        end: u64,
    ) -> (Parts, Result<(), BackupError>)
        requires ours { resting_turn parts.seat ≡ id_of self.now.turn }
        requires ready { IsReady (known_in parts) backing.old (E.device onto.old) }
        ensures ours { resting_turn result.0.seat ≡ id_of self.now.turn }
        ensures mark { (resting_row result.0.seat).opening ≡ (resting_row parts.seat).opening }
        ensures copies { CopiesOnto (known_in parts) (known_in result.0) backing.new (E.device onto.old)
            (E.device onto.new) result.1 }
    {
        let mut parts = parts;
        for _ in 0..end.div_ceil(PART_BYTES) {
            let (next, copied) = self.copy_some(rt, parts, backing, onto, end);
            parts = next;
            match copied {
                Ok(true) => {}
                Ok(false) => return (parts, Ok(())),
                Err(error) => return (parts, Err(error)),
            }
        }
        (parts, Ok(()))
    }

    /// Copies the rest of the area in the last turn, and signs the target.
    fn copy_rest<R: Wait, E: Disk>(
        &self,
        rt: &R,
        parts: Parts,
        backing: &mut Backing,
        onto: &mut E,
    ) -> (Parts, Result<Backed, BackupError>)
        requires ours { resting_turn parts.seat ≡ id_of self.now.turn }
        requires ready { IsReady (known_in parts) backing.old (E.device onto.old) }
        ensures ours { resting_turn result.0.seat ≡ id_of self.now.turn }
        ensures mark { (resting_row result.0.seat).opening ≡ (resting_row parts.seat).opening }
        ensures finishes { Finishes FinishesAs (known_in parts) (known_in result.0) (E.device onto.old)
            (E.device onto.new) result.1 }
    {
        let Entered {
            seat,
            mut held,
            reader,
        } = self.enter(rt, parts);
        let finished = backing.finish(&mut held.state.area, onto);
        let entries = held.count;
        let parts = give_back(&self.turn, seat, held, reader);
        (parts, backed_with(entries, finished))
    }

    /// The turns of a backup, with the parts of a pass of this area.
    fn back_up<R: Wait, E: Disk>(
        &self,
        rt: &R,
        parts: Parts,
        backing: &mut Backing,
        onto: &mut E,
    ) -> (Parts, Result<Backed, BackupError>)
        requires ours { resting_turn parts.seat ≡ id_of self.now.turn }
        requires ready { IsReady (known_in parts) backing.old (E.device onto.old) }
        ensures ours { resting_turn result.0.seat ≡ id_of self.now.turn }
        ensures mark { (resting_row result.0.seat).opening ≡ (resting_row parts.seat).opening }
        ensures finishes { Finishes TurnsEnd (known_in parts) (known_in result.0) (E.device onto.old)
            (E.device onto.new) result.1 }
    {
        let (parts, end) = self.texts_len(rt, parts);
        let (parts, copied) = self.copy_texts(rt, parts, backing, onto, end);
        match copied {
            Ok(()) => self.copy_rest(rt, parts, backing, onto),
            Err(error) => (parts, Err(error)),
        }
    }

    /// Copies the area onto an empty disk, for a pass of it, while others call it. `Ok` tells how many entries the history has then, and how
    /// many messages are live: the target opens to the area after that history, up to the ceilings of .JHR and .JDT.
    ///
    /// It takes a buffer of `PART_BYTES` of `jb_backup`, and begins the target, which has to be empty. Then it waits for the turn again
    /// and again: in each turn it copies a part of the texts that the area had at the first one, and the calls of others go in between.
    /// The last turn copies what is left and the other files, and signs the target. Texts that were copied before a pack are copied anew
    /// there. It records nothing, and changes nothing of the area. An area in doubt is passed over, and refused in the last turn: the doubt
    /// is for a call to end.
    ///
    /// From the first sync of the target until its last write a stop leaves a base there that is refused for its headers, and from then on
    /// the whole backup. After a refusal, but for `NotEmpty` and `OutOfMemory`, the target is to be emptied before the next try.
    pub fn backup<R: Wait, E: Disk>(
        &self,
        rt: &R,
        alloc: Global,
        pass: &mut Pass,
        onto: &mut E,
    ) -> Result<Backed, BackupError>
        requires ours { IsOf self.now pass.old }
        ensures ours { IsOf self.now pass.new }
        ensures backs { BacksUp pass.old.known pass.new.known (E.device onto.old) (E.device onto.new) result }
    {
        let mut backing = match Backing::begin(alloc, onto) {
            Ok(backing) => backing,
            Err(error) => return Err(error),
        };
        let Some(parts) = pass.parts.take() else {
            unreachable!()
        };
        let (parts, backed) = self.back_up(rt, parts, &mut backing, onto);
        pass.parts = Some(parts);
        backed
    }
}
