//! What a change makes of the area as it is loaded, and of the indexes beside it, without memory.
ghost use Rattle.std.specs.Prelude.{◌≡◌, ◌<◌, ◌≤◌, ◌+◌, All, length};
ghost use Rattle.jb_limits.specs.declared.limits.TheConstants.{HEADERS_CEILING, MOST_MARKS, MOST_SLOTS, TEXTS_CEILING};
ghost use Rattle.jb_link.specs.Index.{IsIndexOf};
ghost use Rattle.jb_marks.specs.Order.{IsOrdered};
ghost use Rattle.jb_state.specs.Change.{Fits, FitsBehind, HasMessageAt, IsNeighbourOf, after, headed, headed_where, killed_slot, live_messages, loaded_counted, with_slot_changed};
ghost use Rattle.jb_state.specs.Linked.{IsPlaced, with_links_in, with_links_of};
ghost use Rattle.jb_state.specs.Loaded.{header_size, with_message_anew, with_message_behind};
ghost use Rattle.jb_state.specs.Marks.{with_mark};
ghost use Rattle.jb_state.specs.Plan.{loaded_at};
ghost use Rattle.jb_state.specs.Room.{HasPlaceBeside};
ghost use Rattle.jb_state.specs.declared.change.Change.TheVariants.{Marked};

use jb_link::Replies;
use jb_marks::MarkIndex;
use jb_state::{HeadAt, Links, Loaded, LoadedMessage, LoadedSlot, Mark, SlotRoom};
use jb_subfield::headed_length;

/// Counts a change: modcounter is one more, and activemsgs is this number of live messages.
pub(crate) fn count_change(loaded: &mut Loaded, live: u32)
    requires { live ≡ live_messages loaded.old }
    ensures { loaded.new ≡ loaded_counted loaded.old }
{
    loaded.counter = loaded.counter.wrapping_add(1);
    loaded.active = live;
}

/// Writes these fields into the header of the message at a place.
pub(crate) fn set_head(loaded: &mut Loaded, at: HeadAt)
    requires { at.place < length loaded.old.slots }
    ensures { loaded.new ≡ headed at loaded.old }
{
    loaded.slots.set_head(at.place, at.head);
}

/// Writes the header of the neighbour, where there is one.
fn set_neighbour(loaded: &mut Loaded, neighbour: Option<HeadAt>)
    requires { IsNeighbourOf neighbour loaded.old }
    ensures { loaded.new ≡ headed_where neighbour loaded.old }
{
    if let Some(at) = neighbour {
        set_head(loaded, at);
    }
}

/// Puts a message behind the others, into more places where these have none left.
fn add_message(loaded: &mut Loaded, message: LoadedMessage, wider: Option<SlotRoom>)
    requires place { HasPlaceBeside (length loaded.old.slots) wider }
    requires headers { loaded.old.headers_len + header_size message ≤ HEADERS_CEILING }
    requires texts { loaded.old.texts_len + message.text_len ≤ TEXTS_CEILING }
    ensures { loaded.new ≡ with_message_behind message loaded.old }
{
    loaded.headers_len += headed_length(&message.subfields);
    loaded.texts_len += message.text_len as u64;
    loaded.slots.push_with(LoadedSlot::Live(message), wider);
}

/// Puts a message behind the others, writes the header of its neighbour, and takes the message into the index of the replies.
pub(crate) fn post_message(
    loaded: &mut Loaded,
    replies: &mut Replies,
    message: LoadedMessage,
    neighbour: Option<HeadAt>,
    wider: Option<SlotRoom>,
)
    requires fits { FitsBehind MOST_SLOTS message loaded.old }
    requires neighbour { IsNeighbourOf neighbour loaded.old }
    requires index { IsIndexOf replies.old loaded.old }
    requires room { 0 < replies.old.room }
    requires place { HasPlaceBeside (length loaded.old.slots) wider }
    ensures loaded { loaded.new ≡ with_message_behind message (headed_where neighbour loaded.old) }
    ensures index { IsIndexOf replies.new loaded.new }
    ensures room { replies.new.room + 1 ≡ replies.old.room }
{
    set_neighbour(loaded, neighbour);
    add_message(loaded, message, wider);
    replies.posted(loaded);
}

/// Puts a message in the place of another one; its header and its text stand behind all others.
pub(crate) fn replace_message(loaded: &mut Loaded, place: usize, message: LoadedMessage)
    requires place { place < length loaded.old.slots }
    requires headers { loaded.old.headers_len + header_size message ≤ HEADERS_CEILING }
    requires texts { loaded.old.texts_len + message.text_len ≤ TEXTS_CEILING }
    ensures { loaded.new ≡ with_message_anew place message loaded.old }
{
    loaded.headers_len += headed_length(&message.subfields);
    loaded.texts_len += message.text_len as u64;
    loaded.slots.set(place, LoadedSlot::Live(message));
}

/// Kills the message at a place, and takes it out of the index of the replies.
pub(crate) fn kill_message(loaded: &mut Loaded, replies: &mut Replies, place: usize)
    requires message { HasMessageAt place loaded.old }
    requires numbers { loaded.old.base + length loaded.old.slots ≤ 4_294_967_295 }
    requires index { IsIndexOf replies.old loaded.old }
    ensures loaded { loaded.new ≡ with_slot_changed place killed_slot loaded.old }
    ensures index { IsIndexOf replies.new loaded.new }
    ensures room { replies.new.room ≡ replies.old.room }
{
    let LoadedSlot::Live(message) = &loaded.slots.as_slice()[place] else {
        unreachable!()
    };
    let header_at = message.header_at;
    replies.killed(loaded, loaded.base + place as u32);
    loaded.slots.set(place, LoadedSlot::Killed { header_at });
}

/// Writes these links into the header of the message that they are for, where there is one.
fn set_links_in(loaded: &mut Loaded, links: &Links)
    requires { IsPlaced loaded.old links.now }
    ensures { loaded.new ≡ with_links_in links.now (loaded_at loaded.old links.now.number) loaded.old }
{
    let place = (links.number - loaded.base) as usize;
    if let LoadedSlot::Live(message) = &loaded.slots.as_slice()[place] {
        let mut head = message.head;
        head.reply_to = links.reply_to;
        head.reply_first = links.first;
        head.reply_next = links.next;
        set_head(loaded, HeadAt { place, head });
    }
}

/// Writes the links of a plan.
pub(crate) fn set_plan(loaded: &mut Loaded, plan: &[Links])
    requires { All (IsPlaced loaded.old) plan.now }
    ensures { loaded.new ≡ with_links_of plan.now loaded.old }
{
    for links in plan {
        set_links_in(loaded, links);
    }
}

/// Sets the loaded mark at this place; where there is none, puts it behind the others, and its place into the index.
pub(crate) fn set_loaded_mark(
    loaded: &mut Loaded,
    index: &mut MarkIndex,
    place: Option<usize>,
    mark: Mark,
)
    requires fits { Fits MOST_SLOTS (Marked place mark) loaded.old }
    requires index { IsOrdered loaded.old.marks index.old.order }
    requires room { MOST_MARKS ≤ index.old.room }
    ensures loaded { loaded.new ≡ after (Marked place mark) loaded.old }
    ensures index { IsOrdered (with_mark mark loaded.old.marks) index.new.order }
    ensures room { MOST_MARKS ≤ index.new.room }
{
    match place {
        Some(place) => loaded.marks.set(place, mark),
        None => {
            index.add(loaded.marks.as_slice(), mark);
            let Ok(()) = loaded.marks.push(mark) else {
                unreachable!()
            };
        }
    }
}
