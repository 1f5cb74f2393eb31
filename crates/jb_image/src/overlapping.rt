//! The first two extents of a list that share a byte.
ghost use Rattle.std.specs.Prelude.{IfOk, IfSome, IfNone, MatchOption, AllPairs};
ghost use Rattle.jb_image.specs.Extents.{AreDisjoint, IsFirstOverlap};
ghost use Rattle.jb_image.specs.OverlapSearch.{IsDisjointFromAll, IsLowestOther, IsLowestPartner, SaysDisjoint};

use crate::extent::Extent;
use jb_base::OutOfMemory;
use std::alloc::Global;

/// Two extents of a list that share a byte, by their places in it, counted from 0: `one` stands before `other`.
#[derive(Clone, Copy)]
pub(crate) struct Overlap {
    pub one: usize,
    pub other: usize,
}

/// Whether no two of these share a byte: sorted by their starts, those with bytes need be compared with the next alone.
fn are_disjoint(buffer: &mut Vec<Extent>, extents: &[Extent]) -> Result<bool, OutOfMemory>
    ensures { IfOk result (SaysDisjoint extents.now) }
{
    buffer.clear();
    buffer.extend_from_slice(extents)?;
    buffer.retain(|extent| extent.len > 0);
    buffer.sort_unstable_by_key(|extent| extent.start);
    Ok(buffer.is_sorted_by(|one, next| !one.shares_byte_with(*next)))
}

/// The lowest place whose extent shares a byte with one before it, found by halving: more extents share no less.
fn lowest_other(buffer: &mut Vec<Extent>, extents: &[Extent]) -> Result<usize, OutOfMemory>
    requires { AllPairs AreDisjoint extents.now → ⊥ }
    ensures { IfOk result (IsLowestOther extents.now) }
{
    let mut disjoint = 0;
    let mut shared = extents.len();
    while shared - disjoint > 1 {
        let middle = disjoint + (shared - disjoint) / 2;
        if are_disjoint(buffer, &extents[..middle])? {
            disjoint = middle;
        } else {
            shared = middle;
        }
    }
    Ok(disjoint)
}

/// The lowest place whose extent shares a byte with this one.
fn lowest_partner(extents: &[Extent], extent: Extent) -> Option<usize>
    ensures { MatchOption result (IsDisjointFromAll extents.now extent) (IsLowestPartner extents.now extent) }
{
    extents.iter().position(|one| one.shares_byte_with(extent))
}

/// The first two extents that share a byte: `other` is the lowest place whose extent shares one with an extent at a
/// lower place, and `one` the lowest place that shares one with it. `None` where no two share a byte.
///
/// A list without an overlap costs one copy and one sort of it (n log n). One with an overlap costs a sort of at most
/// log n parts of it more, and one pass. Memory for one copy of the list is taken, once.
pub(crate) fn first_overlap(
    alloc: Global,
    extents: &[Extent],
) -> Result<Option<Overlap>, OutOfMemory>
    ensures none { IfOk result (λ some. IfNone some (AllPairs AreDisjoint extents.now)) }
    ensures found { IfOk result (λ some. IfSome some (IsFirstOverlap extents.now)) }
{
    let mut buffer = Vec::with_capacity(alloc, extents.len())?;
    if are_disjoint(&mut buffer, extents)? {
        return Ok(None);
    }
    let other = lowest_other(&mut buffer, extents)?;
    let one = lowest_partner(&extents[..other], extents[other]).unwrap();
    Ok(Some(Overlap { one, other }))
}
