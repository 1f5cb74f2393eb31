//! What a pass is made of.
ghost use Rattle.std.specs.Prelude.{◌≡◌};
ghost use Rattle.jb_publish.specs.Accounts.{account_of};
ghost use Rattle.jb_turn.specs.Seats.{resting_row};
ghost use Rattle.jb_shared.specs.Histories.{settled_of};

use crate::Opening;
use crate::published::IndexReader;
use crate::refusal::Refusal;
use jb_model::Entry;
use jb_publish::PairMark;
use jb_turn::RestingSeat;

pub(crate) type AreaRest = RestingSeat<PairMark<Opening>, Entry, Refusal>;

/// A node's seat of the turn, and its end that looks. That end is of the area for which the seat is, and was told all that is settled
/// of what the seat has seen.
#[derive(Drop)]
pub(crate) struct Parts {
    pub(crate) seat: AreaRest,
    pub(crate) reader: IndexReader,
    ghost same_mark: { (account_of reader).mark ≡ (resting_row seat).opening },
    ghost informed: { (account_of reader).told ≡ settled_of (resting_row seat).front },
}
