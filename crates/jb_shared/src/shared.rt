//! The shared area.

use crate::Opening;
use crate::refusal::Refusal;
use crate::shown::ShownArea;
use jb_disk::Disk;
use jb_model::Entry;
use jb_publish::{Front, PairMark};
use jb_turn::{Kept, Seat, Turn};

// What lies behind the turn stands for what was asked and what came of it; the mark of what looks see is where that goes on from.
impl<D: Disk> Kept<PairMark<Opening>, Entry> for ShownArea<D> {
    ghost use Rattle.jb_shared.specs.Keeping.{IsKept, history_mark};
    ghost use Rattle.jb_shared.specs.Standing.{caller_of};

    ghost stands = { IsKept D.device };

    ghost opening = { history_mark D.device };

    ghost caller = { caller_of };
}

pub(crate) type AreaTurn<D> = Turn<ShownArea<D>, PairMark<Opening>, Entry, Refusal>;

pub(crate) type AreaSeat<D> = Seat<ShownArea<D>, PairMark<Opening>, Entry, Refusal>;

/// An open area behind a turn, of which looks see an index without it. It may be lent to any number of threads. It is not `Drop`:
/// end it by `close`.
pub struct SharedArea<D: Disk> {
    pub(crate) turn: AreaTurn<D>,
    /// The empty list of what looks see: it tells of which pair a pass is.
    pub(crate) origin: Front<Entry>,
}
