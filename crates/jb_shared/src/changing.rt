//! What a call that is begun changes in the index that looks see.
ghost use Rattle.std.specs.Prelude.{◌≡◌, IfOk};
ghost use Rattle.jb_area.specs.Area.{HasBegun};
ghost use Rattle.jb_shared.specs.Begun.{IsFollowed};

use crate::change::IndexChange;
use jb_area::OpenArea;
use jb_base::OutOfMemory;
use jb_disk::Disk;
use jb_index::Op;
use std::alloc::Global;

/// What the call that is begun changes. It holds whatever the reply says, so it needs no text that is told.
pub(crate) fn change_of<D: Disk>(
    alloc: Global,
    area: &OpenArea<D>,
) -> Result<IndexChange, OutOfMemory>
    requires begun { HasBegun D.device area.now }
    ensures { IfOk result (λ change. IsFollowed D.device area.now change.op) }
{
    let op = Op::of(alloc, area.loaded(), area.replies(), area.change())?;
    Ok(IndexChange { op })
}
