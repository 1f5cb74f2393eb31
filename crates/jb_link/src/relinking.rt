//! The links of all live messages.
ghost use Rattle.std.specs.Prelude.{◌≡◌, ◌⊎◌, ◌+◌, ◌-◌, ◌<◌, ◌≤◌, ◌==◌, ℕ, List, IfOk, length, reverse, slice_index, slice_set, if◌then◌else◌};
ghost use Rattle.jb_link.specs.Parents.{AreParents};
ghost use Rattle.jb_state.specs.Plan.{plan_of};
ghost use Rattle.jb_state.specs.LiveSlots.{linkables, linkables_from};

use crate::parents::parents_by_place;
use crate::slots::is_live_slot;
use jb_base::OutOfMemory;
use jb_state::{Links, Loaded, LoadedSlot, Plan};
use std::alloc::Global;
use std::mem;

/// The links that each live message is to have, in rising order of the numbers.
pub fn relink_plan(alloc: Global, loaded: &Loaded) -> Result<Plan, OutOfMemory>
    requires base { 1 ≤ loaded.now.base }
    requires numbers { loaded.now.base + length loaded.now.slots ≤ 4_294_967_295 }
    ensures { (texts : List ℕ) → IfOk result (λ plan. plan ≡ plan_of (linkables texts loaded.now)) }
{
    let slots = loaded.slots.as_slice();
    let parents = parents_by_place(alloc, loaded.base, slots)?;
    let mut plan = links_from_the_end(alloc, loaded.base, slots, parents.as_slice())?;
    plan.reverse();
    Ok(Plan::from(plan))
}

/// The links of each live message, in falling order of the numbers. A parent is lower than its replies, so when a
/// message is met all its replies have been.
fn links_from_the_end(
    alloc: Global,
    base: u32,
    slots: &[LoadedSlot],
    parents: &[u32],
) -> Result<Vec<Links>, OutOfMemory>
    requires base { 1 ≤ base }
    requires numbers { base + length slots.now ≤ 4_294_967_295 }
    requires parents { AreParents (linkables_from base slots.now) base (length slots.now) parents.now }
    ensures { IfOk result (λ links. links.items ≡ reverse (plan_of (linkables_from base slots.now))) }
{
    let mut firsts = vec![in alloc; 0; slots.len()]?;
    let mut links = Vec::new(alloc);
    for place in (0..slots.len()).rev() {
        if !is_live_slot(&slots[place]) {
            continue;
        }
        let number = base + place as u32;
        let reply_to = parents[place];
        let first = firsts[place];
        let next = put_first(firsts.as_mut_slice(), base, reply_to, number);
        links.push(Links {
            number,
            reply_to,
            first,
            next,
        })?;
    }
    Ok(links)
}

/// Makes the number the first reply of its parent, where it has one, and answers which was that before.
fn put_first(firsts: &mut [u32], base: u32, parent: u32, number: u32) -> u32
    requires { (parent ≡ 0) ⊎ (base ≤ parent) × (parent < base + length firsts.old) }
    ensures next { result ≡ (if parent == 0 then 0 else slice_index firsts.old (parent - base)) }
    ensures put { firsts.new ≡ (if parent == 0 then firsts.old else slice_set firsts.old
        (parent - base) number) }
{
    if parent == 0 {
        return 0;
    }
    mem::replace(&mut firsts[(parent - base) as usize], number)
}
