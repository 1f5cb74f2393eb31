//! What a turn leaves: an entry, or a remark of the seat. A caller picks what is named by the arguments.
ghost use Rattle.std.specs.Prelude.{◌≡◌, ◌+◌, ◌≤◌, Some};
ghost use Rattle.jb_area.specs.Area.{device_of};
ghost use Rattle.jb_limits.specs.declared.limits.TheConstants.{MOST_ENTRIES};
ghost use Rattle.jb_shared.specs.Keeping.{IsKept};
ghost use Rattle.jb_shared.specs.Noting.{entry_of};
ghost use Rattle.jb_shared.specs.Standing.{caller_of};
ghost use Rattle.jb_shared.specs.Stepping.{TellsLeft};
ghost use Rattle.jb_turn.specs.Rows.{StandsFrom};
ghost use Rattle.jb_turn.specs.Seats.{front, opening, row_of, HoldsTurn, Rests};
ghost use Rattle.jb_turn.specs.Steps.{given, noted};

use crate::call::Call;
use crate::refusal::Refusal;
use crate::shared::{AreaSeat, AreaTurn};
use crate::shown::ShownArea;
use jb_base::User;
use jb_disk::Disk;
use jb_model::{Entry, Reply};
use jb_turn::{Held, NamesEntry, NamesRemark};

/// What is recorded: the end of a doubt; or a call, as answered, or as the device stopped it, begun or not.
#[derive(Clone, Copy)]
pub(crate) enum Noted<'n> {
    Reopened { stands: bool },
    Replied { call: Call<'n>, reply: &'n Reply },
    InDoubt { call: Call<'n> },
    NotBegun { call: Call<'n> },
}

/// Records this.
pub(crate) fn note<D: Disk, J: NamesEntry<Entry>>(
    turn: &AreaTurn<D>,
    seat: &mut AreaSeat<D>,
    held: &mut Held<ShownArea<D>>,
    what: Noted<'_>,
)
    requires entry { J.entry ≡ Some (entry_of (row_of seat.old)
        (device_of D.device held.old.state.area).faults what) }
    requires seat { HoldsTurn turn.now seat.old held.old.count × (held.old.count ≤ MOST_ENTRIES) }
    ensures row { row_of seat.new ≡ noted caller_of (row_of seat.old) (entry_of (row_of seat.old)
        (device_of D.device held.old.state.area).faults what.entry) }
    ensures seat { HoldsTurn turn.now seat.new held.new.count }
    ensures kept { held.new.state ≡ held.old.state }
    ensures count { held.new.count ≡ held.old.count + 1 }
{
    turn.note::<J>(seat, held);
}

/// Gives the area back with this remark, or with none, behind a call of this user.
pub(crate) fn give<D: Disk, J: NamesRemark<Refusal>>(
    turn: &AreaTurn<D>,
    seat: &mut AreaSeat<D>,
    held: Held<ShownArea<D>>,
    user: &User,
    remark: Option<Refusal>,
)
    requires remark { J.remark ≡ remark }
    requires left { TellsLeft D.device held user.now remark }
    requires seat { HoldsTurn turn.now seat.old held.count }
    requires stands { StandsFrom (IsKept D.device) (opening seat.old) held.state (front seat.old) }
    ensures rests { Rests turn.now seat.new }
    ensures row { row_of seat.new ≡ given (row_of seat.old) remark }
{
    turn.give::<J>(seat, held);
}
