//! The headers that share a byte.
ghost use Rattle.std.specs.Prelude.{◌≡◌, IfOk, IfSome, IfNone, AllPairs, map};
ghost use Rattle.jb_image.specs.Extents.{AreDisjoint, IsFirstOverlap};
ghost use Rattle.jb_image.specs.Reading.{extent_seen};

use crate::extent::Extent;
use crate::overlapping::{Overlap, first_overlap};
use crate::seen::SeenSlot;
use jb_base::OutOfMemory;
use std::alloc::Global;

/// The bytes of .JHR that each header takes, in the order of the index.
fn extents_of(alloc: Global, seen: &[SeenSlot]) -> Result<Vec<Extent>, OutOfMemory>
    ensures { IfOk result (λ extents. extents.items ≡ map extent_seen seen.now) }
{
    let mut extents = Vec::with_capacity(alloc, seen.len())?;
    for slot in seen {
        extents.push(slot.extent())?;
    }
    Ok(extents)
}

/// The first two slots whose headers share a byte, by their places in the index.
pub(crate) fn overlap_of(alloc: Global, seen: &[SeenSlot]) -> Result<Option<Overlap>, OutOfMemory>
    ensures none { IfOk result (λ some. IfNone some (AllPairs AreDisjoint (map extent_seen seen.now))) }
    ensures found { IfOk result (λ some. IfSome some (IsFirstOverlap (map extent_seen seen.now))) }
{
    let extents = extents_of(alloc, seen)?;
    first_overlap(alloc, extents.as_slice())
}
