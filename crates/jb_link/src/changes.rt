//! In how many messages a link is another than the area gives.
ghost use Rattle.std.specs.Prelude.{◌≡◌, ◌↔◌, ◌+◌, ◌≤◌, not, ℕ, List, count_by, length};
ghost use Rattle.jb_state.specs.Links.{IsLinked};
ghost use Rattle.jb_state.specs.Relinked.{wrongly_linked};
ghost use Rattle.jb_state.specs.State.{state_of};
ghost use Rattle.jb_state.specs.Plan.{differs, has_links, loaded_at, plan_of};
ghost use Rattle.jb_state.specs.LiveSlots.{linkables};

use jb_state::{Head, Links, Loaded, LoadedSlot};

/// In how many live messages a link field is another than in this plan, which is that of
/// [`relink_plan`](crate::relink_plan).
pub fn changed(loaded: &Loaded, plan: &[Links]) -> u32
    requires numbers { loaded.now.base + length loaded.now.slots ≤ 4_294_967_295 }
    requires plan { (texts : List ℕ) → plan.now ≡ plan_of (linkables texts loaded.now) }
    ensures count { (texts : List ℕ) → result ≡ wrongly_linked (state_of texts loaded.now) }
    ensures linked { (texts : List ℕ) → (result ≡ 0) ↔ IsLinked (state_of texts loaded.now) }
{
    count_changed(loaded, plan) as u32
}

/// How many of these links are other ones in the live message with their number.
fn count_changed(loaded: &Loaded, plan: &[Links]) -> usize
    ensures { result ≡ count_by (λ links. differs (loaded_at loaded.now links.number) links) plan.now }
{
    plan.iter()
        .filter(|links| is_changed(loaded, links))
        .count()
}

/// Whether the live message with that number has another link.
fn is_changed(loaded: &Loaded, links: &Links) -> bool
    ensures { result ≡ differs (loaded_at loaded.now links.now.number) links.now }
{
    if links.number < loaded.base {
        return false;
    }
    match loaded
        .slots
        .as_slice()
        .get((links.number - loaded.base) as usize)
    {
        Some(LoadedSlot::Live(message)) => has_other_links(&message.head, links),
        _ => false,
    }
}

/// Whether a header has another link.
fn has_other_links(head: &Head, links: &Links) -> bool
    ensures { result ≡ not (has_links head.now links.now) }
{
    head.reply_to != links.reply_to
        || head.reply_first != links.first
        || head.reply_next != links.next
}
