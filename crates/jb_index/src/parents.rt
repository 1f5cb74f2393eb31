//! The parents of all live messages, as an index wants them.
ghost use Rattle.std.specs.Prelude.{◌≡◌, ◌+◌, ◌≤◌, [], IfOk, length, map};
ghost use Rattle.jb_index.specs.Index.{parents_in};
ghost use Rattle.jb_state.specs.State.{state_of};

use jb_base::OutOfMemory;
use jb_link::relink_plan;
use jb_state::{Links, Loaded};
use std::alloc::Global;

/// The parent of each live message, in rising order of their numbers. Its cost is that of a plan of all links.
pub fn parents_of(alloc: Global, loaded: &Loaded) -> Result<Vec<u32>, OutOfMemory>
    requires base { 1 ≤ loaded.now.base }
    requires numbers { loaded.now.base + length loaded.now.slots ≤ 4_294_967_295 }
    ensures { IfOk result (λ parents. parents.items ≡ parents_in (state_of [] loaded.now)) }
{
    let plan = relink_plan(alloc, loaded)?;
    parents_among(alloc, plan.as_slice())
}

/// The parents that these links name.
fn parents_among(alloc: Global, links: &[Links]) -> Result<Vec<u32>, OutOfMemory>
    ensures { IfOk result (λ parents. parents.items ≡ map (λ one. one.reply_to) links.now) }
{
    let parents = links.iter().map(|one| one.reply_to).collect(alloc)?;
    Ok(parents)
}
