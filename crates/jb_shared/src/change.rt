//! A change of what looks see.
ghost use Rattle.std.specs.Prelude.{◌≡◌, []};

use jb_index::Op;
use std::alloc::Global;

/// What a call changes in the index that looks see.
#[derive(Drop)]
pub(crate) struct IndexChange {
    pub(crate) op: Op,
}

impl IndexChange {
    /// No change. It takes no memory.
    pub(crate) fn none(alloc: Global) -> IndexChange
        ensures { result.op ≡ [] }
    {
        IndexChange { op: Op::new(alloc) }
    }
}
