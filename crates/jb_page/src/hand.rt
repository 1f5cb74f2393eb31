//! One queue, and a pager's hand: its pass of one queue, which has its row. Their fields are the crate's own.
ghost use Rattle.std.specs.Prelude.{◌≡◌, []};
ghost use Rattle.crossbeam_queue.specs.Passes.{ruled_capacity};

use crate::rule::{Queue, QueuePass};

/// The pages that wait for one node.
#[derive(Drop)]
pub(crate) struct PageQueue {
    pub(crate) queue: Queue,
    ghost room: { ruled_capacity queue ≡ 64 },
}

/// One pager's pass of one queue.
#[derive(Drop)]
pub(crate) struct Hand {
    pub(crate) pass: QueuePass,
    // A value of no size cannot stand in a slice.
    pub(crate) pager: u32,
    ghost home: { pass.me.1 ≡ [] },
}

impl Hand {
    pub(crate) fn into_pass(self) -> QueuePass
        ensures { result ≡ self.pass }
    {
        let Self { pass, pager: _ } = self;
        pass
    }
}
