//! The thread of a message.
ghost use Rattle.std.specs.Prelude.{◌≡◌, ◌+◌, ◌<◌, ◌≤◌, [], IfOk, length};
ghost use Rattle.jb_state.specs.LiveSlots.{linkables, linkables_from};
ghost use Rattle.jb_state.specs.Links.{thread_root};
ghost use Rattle.jb_link.specs.Index.{IsIndexOf};
ghost use Rattle.jb_link.specs.Thread.{AreRoots, thread_from};

use crate::Replies;
use crate::slots::is_live_slot;
use jb_base::OutOfMemory;
use jb_state::{Loaded, LoadedSlot};
use std::alloc::Global;

/// The message with which the thread of a place begins. That of each place below is known: a parent is lower than its replies.
fn root_at(replies: &Replies, loaded: &Loaded, roots: &[u32], place: usize) -> u32
    requires index { IsIndexOf replies.now loaded.now }
    requires numbers { loaded.now.base + length loaded.now.slots ≤ 4_294_967_295 }
    requires place { place < length loaded.now.slots }
    requires roots { AreRoots (linkables [] loaded.now) loaded.now.base place roots.now }
    ensures { result ≡ thread_root (linkables [] loaded.now) (loaded.now.base + place) }
{
    let number = loaded.base + place as u32;
    let parent = replies.parent_at(loaded, number);
    if parent == 0 {
        number
    } else {
        roots[(parent - loaded.base) as usize]
    }
}

/// The message with which the thread of each place begins.
pub(crate) fn roots_by_place(
    alloc: Global,
    replies: &Replies,
    loaded: &Loaded,
) -> Result<Vec<u32>, OutOfMemory>
    requires index { IsIndexOf replies.now loaded.now }
    requires numbers { loaded.now.base + length loaded.now.slots ≤ 4_294_967_295 }
    ensures { IfOk result (λ roots. AreRoots (linkables [] loaded.now) loaded.now.base
        (length loaded.now.slots) roots.items) }
{
    let mut roots = Vec::new(alloc);
    for place in 0..loaded.slots.as_slice().len() {
        let root = root_at(replies, loaded, roots.as_slice(), place);
        roots.push(root)?;
    }
    Ok(roots)
}

/// The live numbers whose thread begins with this message, in rising order; the first slot has the number `base`.
pub(crate) fn numbers_with_root(
    alloc: Global,
    base: u32,
    slots: &[LoadedSlot],
    roots: &[u32],
    root: u32,
) -> Result<Vec<u32>, OutOfMemory>
    requires numbers { base + length slots.now ≤ 4_294_967_295 }
    requires roots { AreRoots (linkables_from base slots.now) base (length slots.now) roots.now }
    ensures { IfOk result (λ numbers. numbers.items ≡ thread_from (linkables_from base slots.now) root) }
{
    let mut numbers = Vec::new(alloc);
    for place in 0..slots.len() {
        if is_live_slot(&slots[place]) && roots[place] == root {
            numbers.push(base + place as u32)?;
        }
    }
    Ok(numbers)
}
