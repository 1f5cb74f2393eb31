//! A pass takes the turn, and gives it back.
ghost use Rattle.std.specs.Prelude.{◌≡◌, List, Some};
ghost use Rattle.jb_model.specs.declared.entry.Entry.{Entry};
ghost use Rattle.jb_publish.specs.Accounts.{account_of, told_with};
ghost use Rattle.jb_turn.specs.Rows.{Begins, StandsFrom};
ghost use Rattle.jb_turn.specs.Seats.{front, id_of, opening, resting_row, resting_turn, row_of, HoldsTurn};
ghost use Rattle.jb_turn.specs.Steps.{given, sighted};
ghost use Rattle.jb_shared.specs.Histories.{settled_of};
ghost use Rattle.jb_shared.specs.InTurn.{IsBehind, IsOut, IsToldOf};
ghost use Rattle.jb_shared.specs.Keeping.{IsKept};
ghost use Rattle.jb_shared.specs.Stepping.{LeavesAs, TellsLeft};
ghost use Rattle.jb_shared.specs.declared.refusal.Refusal.TheVariants.{Stepped};

use crate::SharedArea;
use crate::noting::give;
use crate::parts::Parts;
use crate::published::IndexReader;
use crate::refusal::Refusal;
use crate::shared::{AreaSeat, AreaTurn};
use crate::showing::inform;
use crate::shown::ShownArea;
use jb_base::User;
use jb_disk::Disk;
use jb_turn::Held;
use std::marker::Brand;
use std::sync::Wait;

/// The parts of a pass whose turn has come, with the area that is out with its seat.
pub(crate) struct Entered<D: Disk> {
    pub(crate) seat: AreaSeat<D>,
    pub(crate) held: Held<ShownArea<D>>,
    pub(crate) reader: IndexReader,
}

impl<D: Disk> SharedArea<D> {
    /// Waits for the turn and takes it. The end that looks learns all that is shown.
    pub(crate) fn enter<R: Wait>(&self, rt: &R, parts: Parts) -> Entered<D>
        requires ours { resting_turn parts.seat ≡ id_of self.now.turn }

        // The area is out with the seat, which has seen more of the history.
        ensures out { IsOut (IsKept D.device) self.now.turn result.seat result.held }
        ensures took { row_of result.seat ≡ sighted (resting_row parts.seat) (front result.seat) }
        ensures grows { Begins (resting_row parts.seat).front (front result.seat) }

        // What looks showed begins all that is settled of it. The end that looks was told that, and all else of it stays.
        ensures shown { Begins (account_of parts.reader).shown (settled_of (front result.seat)) }
        ensures told { IsToldOf (row_of result.seat) (account_of result.reader) }
        ensures account { (list : List Entry)
            × (account_of result.reader ≡ told_with (account_of parts.reader) list) }
    {
        let Parts { seat, mut reader } = parts;
        let mut seat: AreaSeat<D> = seat.wake();
        let held = self.turn.take(rt, &mut seat);
        held.state.shower.leads(rt, &reader.seen());
        inform(&held.state.shower, &mut reader);
        Entered { seat, held, reader }
    }
}

/// Gives the area back behind a call of this user, with this remark, or with none.
pub(crate) fn end<D: Disk>(
    turn: &AreaTurn<D>,
    mut seat: AreaSeat<D>,
    held: Held<ShownArea<D>>,
    reader: IndexReader,
    user: &User,
    remark: Option<Refusal>,
) -> Parts
    requires seat { HoldsTurn turn.now seat held.count }
    requires stands { StandsFrom (IsKept D.device) (opening seat) held.state (front seat) }
    requires told { IsToldOf (row_of seat) (account_of reader) }
    requires left { TellsLeft D.device held user.now remark }
    ensures here { resting_turn result.seat ≡ id_of turn.now }
    ensures row { resting_row result.seat ≡ given (row_of seat) remark }
    ensures account { account_of result.reader ≡ account_of reader }
{
    give::<D, Brand>(turn, &mut seat, held, user, remark);
    let seat = seat.rest();
    Parts { seat, reader }
}

/// The same, once the end that looks has learned all that is shown.
pub(crate) fn leave<D: Disk>(
    turn: &AreaTurn<D>,
    seat: AreaSeat<D>,
    held: Held<ShownArea<D>>,
    mut reader: IndexReader,
    user: &User,
    remark: Option<Refusal>,
) -> Parts
    requires out { IsOut (IsKept D.device) turn.now seat held }
    requires told { IsBehind (row_of seat) (account_of reader) }
    requires left { TellsLeft D.device held user.now remark }
    ensures here { resting_turn result.seat ≡ id_of turn.now }
    ensures row { resting_row result.seat ≡ given (row_of seat) remark }
    ensures account { (list : List Entry) × (account_of result.reader ≡ told_with (account_of reader) list) }
{
    inform(&held.state.shower, &mut reader);
    end(turn, seat, held, reader, user, remark)
}

/// The same, behind a step of a pack of this user that left so much.
pub(crate) fn leave_stepped<D: Disk>(
    turn: &AreaTurn<D>,
    seat: AreaSeat<D>,
    held: Held<ShownArea<D>>,
    reader: IndexReader,
    user: &User,
    left: Option<u64>,
) -> Parts
    requires out { IsOut (IsKept D.device) turn.now seat held }
    requires told { IsBehind (row_of seat) (account_of reader) }
    requires left { LeavesAs D.device held user.now left }
    ensures here { resting_turn result.seat ≡ id_of turn.now }
    ensures row { resting_row result.seat ≡ given (row_of seat) (Some (Stepped left)) }
    ensures account { (list : List Entry) × (account_of result.reader ≡ told_with (account_of reader) list) }
{
    leave(
        turn,
        seat,
        held,
        reader,
        user,
        Some(Refusal::Stepped { left }),
    )
}
