//! The parents of all live messages.
ghost use Rattle.std.specs.Prelude.{◌≡◌, ◌+◌, ◌<◌, ◌≤◌, IfOk, OnOk, length, slice_get, take};
ghost use Rattle.jb_state.specs.Links.{parent_at};
ghost use Rattle.jb_link.specs.Ids.{HasLowest, IsSettled, KeepsLowest, number_of};
ghost use Rattle.jb_state.specs.LiveSlots.{linkables_from};
ghost use Rattle.jb_link.specs.Parents.{AreParents};

use crate::ids::Ids;
use crate::slots::{msgid_in, number_if_live};
use jb_base::{OutOfMemory, REPLYID};
use jb_state::LoadedSlot;
use std::alloc::Global;

/// The parent of the message at each place, or 0; the first slot has the number `base`.
pub(crate) fn parents_by_place(
    alloc: Global,
    base: u32,
    slots: &[LoadedSlot],
) -> Result<Vec<u32>, OutOfMemory>
    requires base { 1 ≤ base }
    requires numbers { base + length slots.now ≤ 4_294_967_295 }
    ensures { IfOk result (λ parents. AreParents (linkables_from base slots.now) base
        (length slots.now) parents.items) }
{
    let mut ids = Ids::new(alloc, slots.len())?;
    let mut parents = Vec::new(alloc);
    for place in 0..slots.len() {
        parents.push(parent_at(base, slots, place, &ids))?;
        keep_id(&mut ids, base, slots, place)?;
    }
    Ok(parents)
}

/// The parent of the message at this place, or 0, where these are the lowest numbers of the ids below it.
fn parent_at<'a>(base: u32, slots: &'a [LoadedSlot], place: usize, ids: &Ids<'a>) -> u32
    requires place { place < length slots.now }
    requires settled { IsSettled ids.now }
    requires ids { HasLowest (number_of base slots.now ids.now) (linkables_from base (take place slots.now)) }
    ensures { result ≡ parent_at (linkables_from base slots.now) (base + place) }
{
    let LoadedSlot::Live(message) = &slots[place] else {
        return 0;
    };
    match message.subfields.first(REPLYID) {
        Some(id) => ids.number_of(base, slots, id),
        None => number_if_live(base, &slots[..place], message.head.reply_to),
    }
}

/// Keeps the number of the MSGID at a place, where it is the lowest with it.
fn keep_id<'a>(
    ids: &mut Ids<'a>,
    base: u32,
    slots: &'a [LoadedSlot],
    place: usize,
) -> Result<(), OutOfMemory>
    requires base { 1 ≤ base }
    requires numbers { base + length slots.now ≤ 4_294_967_295 }
    requires place { place < length slots.now }
    requires settled { IsSettled ids.old }
    ensures { OnOk result (IsSettled ids.new × KeepsLowest (number_of base slots.now ids.old)
        (number_of base slots.now ids.new) (base + place) (slice_get slots.now place)) }
{
    match msgid_in(&slots[place]) {
        Some(id) => ids.keep(base, slots, id, base + place as u32),
        None => Ok(()),
    }
}
