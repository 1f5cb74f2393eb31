//! What is kept beside an area as it is loaded: a count, and indexes with room for more.
ghost use Rattle.std.specs.Prelude.{◌≡◌, ◌≤◌, ◌+◌, [], length, map, unwrap_or, IfOk};
ghost use Rattle.std.specs.Int.{IsPowerOfTwo};
ghost use Rattle.jb_limits.specs.declared.limits.TheConstants.{MOST_MARKS, MOST_SLOTS};
ghost use Rattle.jb_marks.specs.Order.{IsOrdered};
ghost use Rattle.jb_state.specs.Live.{live_count};
ghost use Rattle.jb_state.specs.Room.{IsWider};
ghost use Rattle.jb_state.specs.State.{slot_state};
ghost use Rattle.jb_link.specs.Index.{IsIndexOf};

use jb_base::{MOST_MARKS, OutOfMemory};
use jb_link::Replies;
use jb_marks::MarkIndex;
use jb_state::{Loaded, LoadedSlot, places_behind};
use std::alloc::Global;

/// How many messages are live.
pub(crate) fn count_live(slots: &[LoadedSlot]) -> u32
    requires { length slots.now ≤ MOST_SLOTS }
    ensures { result ≡ live_count (map (slot_state []) slots.now) }
{
    slots
        .iter()
        .filter(|slot| matches!(slot, LoadedSlot::Live(_)))
        .count() as u32
}

/// The places of the marks by their users, and room for as many as an area may have. Its cost is that of sorting them.
pub(crate) fn mark_index_of(alloc: Global, loaded: &Loaded) -> Result<MarkIndex, OutOfMemory>
    requires { length loaded.now.marks ≤ MOST_MARKS }
    ensures index { IfOk result (λ index. IsOrdered loaded.now.marks index.order) }
    ensures room { IfOk result (λ index. MOST_MARKS ≤ index.room) }
{
    let mut index = MarkIndex::of(alloc, loaded.marks.as_slice())?;
    let more = MOST_MARKS - loaded.marks.as_slice().len() as u32;
    index.reserve(more)?;
    Ok(index)
}

/// For how many messages more there is to be room, where there are so many.
pub(crate) fn room_behind(taken: u32) -> u32
    requires { taken ≤ MOST_SLOTS }
    ensures { IsWider taken (taken + result) }
{
    places_behind(taken) - taken
}

/// The index of the replies, and room for as many messages as the next power of two.
pub(crate) fn replies_of(alloc: Global, loaded: &Loaded) -> Result<Replies, OutOfMemory>
    requires numbers { loaded.now.base + length loaded.now.slots ≤ 4_294_967_295 }
    requires few_slots { length loaded.now.slots ≤ MOST_SLOTS }
    ensures index { IfOk result (λ replies. IsIndexOf replies loaded.now) }
    ensures room { IfOk result (λ replies. IsPowerOfTwo (length loaded.now.slots + replies.room)) }
{
    let mut replies = Replies::of(alloc, loaded)?;
    let more = room_behind(loaded.slots.as_slice().len() as u32);
    replies.reserve(more)?;
    Ok(replies)
}

/// Has the other index in the place of this one, where there is another.
pub(crate) fn put_index(index: &mut Replies, other: Option<Replies>)
    ensures { index.new ≡ unwrap_or other index.old }
{
    if let Some(other) = other {
        *index = other;
    }
}
