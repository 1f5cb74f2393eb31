//! The headers of an area get the links of a plan.
ghost use Rattle.std.specs.Prelude.{◌≡◌, ◌≤◌, ◌+◌, ◌*◌, ◌∷◌, ◌++◌, [], not, All, List, OnOk, length};
ghost use Rattle.jb_change.specs.Headers.{Updates};
ghost use Rattle.jb_change.specs.Links.{AreLeftAbove, HasNearHeaders};
ghost use Rattle.jb_change.specs.Put.{IsInLinks, LeavesBut, LeavesRest};
ghost use Rattle.jb_disk.specs.RedoView.{HasRoom, Spends};
ghost use Rattle.jb_limits.specs.declared.limits.TheConstants.{MOST_SLOTS};
ghost use Rattle.jb_state.specs.Change.{after, live_messages};
ghost use Rattle.jb_state.specs.Linked.{IsPlaced, with_links_of};
ghost use Rattle.jb_state.specs.LiveSlots.{linkables_from};
ghost use Rattle.jb_state.specs.Plan.{differs, has_links, loaded_at, plan_of};
ghost use Rattle.jb_state.specs.Sound.{IsSound};
ghost use Rattle.jb_state.specs.declared.change.Change.TheVariants.{Relinked};
ghost use Rattle.jb_state.specs.declared.links.Links.{Links};
ghost use Rattle.jb_redo.specs.Changes.{IsWritable, KeepsRoom, record_size};

use crate::area::put_counts;
use crate::emptying::make_room;
use crate::header::put_links;
use jb_base::OutOfMemory;
use jb_disk::Redo;
use jb_state::{Head, Links, Loaded, LoadedSlot};

/// Puts these links into the header of the message that they are for, where there is one.
fn put_links_in(redo: &mut Redo, loaded: &Loaded, links: &Links)
    requires room { HasRoom 0 1 12 redo.old }
    requires near { HasNearHeaders loaded.now }
    requires placed { IsPlaced loaded.now links.now }

    // Where the change made the area with some links, it now makes it with these behind them.
    ensures makes { (before : List Links) → Updates redo.old loaded.now (with_links_of before loaded.now) []
        → Updates redo.new loaded.now (with_links_of (before ++ links.now ∷ []) loaded.now) [] }
    ensures leaves { (before : List Links) → Updates redo.old loaded.now (with_links_of before loaded.now) []
        → LeavesBut redo.old loaded.now (IsInLinks loaded.now)
        → LeavesBut redo.new loaded.now (IsInLinks loaded.now) }

    // What it takes of the redo and of the journal.
    ensures lengths { redo.new.lengths ≡ redo.old.lengths }
    ensures room { Spends 0 1 12 redo.old redo.new }
    ensures kept { KeepsRoom redo.old redo.new }
    ensures size { record_size redo.new ≤ record_size redo.old + 32 }
{
    let place = (links.number - loaded.base) as usize;
    if let LoadedSlot::Live(message) = &loaded.slots.as_slice()[place] {
        put_links(
            redo,
            message.header_at,
            links.reply_to,
            links.first,
            links.next,
        );
    }
}

/// Whether a header has another link.
fn has_other_links(head: &Head, links: &Links) -> bool
    ensures { result ≡ not (has_links head.now links.now) }
{
    head.reply_to != links.reply_to
        || head.reply_first != links.first
        || head.reply_next != links.next
}

/// Whether the message that the links are for, where there is one, has another link.
fn is_changed(loaded: &Loaded, links: &Links) -> bool
    requires { IsPlaced loaded.now links.now }
    ensures { result ≡ differs (loaded_at loaded.now links.now.number) links.now }
{
    let place = (links.number - loaded.base) as usize;
    match &loaded.slots.as_slice()[place] {
        LoadedSlot::Live(message) => has_other_links(&message.head, links),
        _ => false,
    }
}

/// Puts these links into the header of the message that they are for, where it has another. Of a number up to `last` that
/// is not looked at: other links may have been put there.
fn put_other_links(redo: &mut Redo, loaded: &Loaded, links: &Links, last: u32)
    requires room { HasRoom 0 1 12 redo.old }
    requires near { HasNearHeaders loaded.now }
    requires placed { IsPlaced loaded.now links.now }

    // Where the change made the area with some links, which are up to the last number, it now makes it with these behind them.
    ensures makes { (before : List Links) → AreLeftAbove before last loaded.now
        → Updates redo.old loaded.now (with_links_of before loaded.now) []
        → Updates redo.new loaded.now (with_links_of (before ++ links.now ∷ []) loaded.now) [] }
    ensures leaves { (before : List Links) → Updates redo.old loaded.now (with_links_of before loaded.now) []
        → LeavesBut redo.old loaded.now (IsInLinks loaded.now)
        → LeavesBut redo.new loaded.now (IsInLinks loaded.now) }

    // What it takes of the redo and of the journal.
    ensures lengths { redo.new.lengths ≡ redo.old.lengths }
    ensures room { Spends 0 1 12 redo.old redo.new }
    ensures kept { KeepsRoom redo.old redo.new }
    ensures size { record_size redo.new ≤ record_size redo.old + 32 }
{
    if links.number <= last || is_changed(loaded, links) {
        put_links_in(redo, loaded, links);
    }
}

/// Puts the links of a plan into the headers of their messages that have others.
fn put_plan(redo: &mut Redo, loaded: &Loaded, plan: &[Links])
    requires room { HasRoom 0 (length plan.now) (12 * length plan.now) redo.old }
    requires near { HasNearHeaders loaded.now }
    requires placed { All (IsPlaced loaded.now) plan.now }
    ensures makes { Updates redo.old loaded.now loaded.now []
        → Updates redo.new loaded.now (with_links_of plan.now loaded.now) [] }
    ensures leaves { Updates redo.old loaded.now loaded.now [] → LeavesBut redo.old loaded.now
        (IsInLinks loaded.now) → LeavesBut redo.new loaded.now (IsInLinks loaded.now) }

    // What it takes of the redo and of the journal.
    ensures lengths { redo.new.lengths ≡ redo.old.lengths }
    ensures room { Spends 0 (length plan.now) (12 * length plan.now) redo.old redo.new }
    ensures kept { KeepsRoom redo.old redo.new }
    ensures size { record_size redo.new ≤ record_size redo.old + 32 * length plan.now }
{
    let mut last = 0;
    for links in plan {
        put_other_links(redo, loaded, links, last);
        last = last.max(links.number);
    }
}

/// Puts the links of a plan into the headers of their messages that have others, and the counts.
pub(crate) fn put_relinked(
    redo: &mut Redo,
    loaded: &Loaded,
    plan: &[Links],
    active: u32,
) -> Result<(), OutOfMemory>
    requires sound { IsSound MOST_SLOTS loaded.now }
    requires fits { plan.now ≡ plan_of (linkables_from loaded.now.base loaded.now.slots) }
    requires active { active ≡ live_messages (after (Relinked plan.now) loaded.now) }
    ensures makes { OnOk result (Updates redo.new loaded.now (after (Relinked plan.now) loaded.now) []) }
    ensures leaves { OnOk result (LeavesRest redo.new loaded.now (Relinked plan.now)) }
    ensures writable { OnOk result (IsWritable redo.new) }
    ensures kept { KeepsRoom redo.old redo.new }
{
    make_room(redo, plan.len())?;
    put_plan(redo, loaded, plan);
    put_counts(redo, loaded.counter.wrapping_add(1), active);
    Ok(())
}
