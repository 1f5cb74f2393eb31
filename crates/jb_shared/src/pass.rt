//! One node's way into a shared area.

use crate::Opening;
use crate::parts::Parts;
use crate::refusal::Refusal;
use crate::shared::AreaSeat;
use crate::shown::ShownArea;
use jb_disk::Disk;
use jb_model::Entry;
use jb_publish::PairMark;
use jb_turn::Seated;
use std::marker::Model;

/// The pass of one node of a shared area. Its calls are numbered from 1. It does not name the disk, may be sent to a thread
/// and may be dropped; an area that misses a pass cannot be closed.
#[derive(Drop)]
pub struct Pass {
    /// They are away only while a call on the pass is made.
    pub(crate) parts: Option<Parts>,
    /// Whether its last call has ended a doubt.
    pub(crate) has_settled: bool,
}

impl Pass {
    /// Whether the last call on it has ended a doubt of the area, and left none.
    pub fn has_settled(&self) -> bool {
        self.has_settled
    }
}

impl Model for Pass {
    ghost use Rattle.jb_shared.specs.Passes.{PassView};

    ghost Value = { PassView };

    ghost use Rattle.jb_shared.specs.Inside.{pass_in, HasParts};

    ghost view = { pass_in };

    ghost invariant = { HasParts };
}

// Closing takes passes in as they are.
impl<D: Disk> Seated<ShownArea<D>, PairMark<Opening>, Entry, Refusal> for Pass {
    ghost use Rattle.std.specs.Prelude.{Some};
    ghost use Rattle.std.specs.Prelude.{◌≡◌};
    ghost use Rattle.jb_shared.specs.Passes.{row_in, turn_in};

    ghost rests = { λ pass turn. turn_in pass ≡ Some turn };

    ghost knows = { row_in };

    fn number(&self) -> u32 {
        match &self.parts {
            Some(parts) => parts.seat.node(),
            None => unreachable!(),
        }
    }

    #[tactic(auto, using(crate::proofs::PassLemmas::mark_again))]
    fn into_seat(self) -> AreaSeat<D> {
        let Some(parts) = self.parts else {
            unreachable!()
        };
        parts.seat.wake()
    }
}
