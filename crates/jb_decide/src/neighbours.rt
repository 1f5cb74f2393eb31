//! The one other message whose header a post changes.
ghost use Rattle.std.specs.Prelude.{◌≡◌, ◌⊎◌, ◌+◌, ◌≤◌, length};
ghost use Rattle.jb_state.specs.LiveSlots.{IsLive};
ghost use Rattle.jb_link.specs.Index.{IsIndexOf};
ghost use Rattle.jb_decide.specs.Neighbour.{HasNeighbour, first_reply_head, neighbour_at, next_reply_head};

use crate::found::found_at;
use jb_link::{Replies, Spliced};
use jb_state::{Head, HeadAt, Loaded};

/// A number as the first reply of the message that another number names.
fn named_first(loaded: &Loaded, of: u32, number: u32) -> Option<HeadAt>
    ensures { result ≡ neighbour_at loaded.now of (first_reply_head number) }
{
    let found = found_at(loaded, of)?;
    let head = Head {
        reply_first: number,
        ..found.message.head
    };
    Some(HeadAt {
        place: found.place,
        head,
    })
}

/// A number as the next reply behind the message that another number names.
fn named_next(loaded: &Loaded, of: u32, number: u32) -> Option<HeadAt>
    ensures { result ≡ neighbour_at loaded.now of (next_reply_head number) }
{
    let found = found_at(loaded, of)?;
    let head = Head {
        reply_next: number,
        ..found.message.head
    };
    Some(HeadAt {
        place: found.place,
        head,
    })
}

/// The neighbour of a new message with this number that answers this parent, or 0.
pub(crate) fn neighbour_of(
    loaded: &Loaded,
    replies: &Replies,
    parent: u32,
    number: u32,
) -> Option<HeadAt>
    requires index { IsIndexOf replies.now loaded.now }
    requires base { 1 ≤ loaded.now.base }
    requires numbers { loaded.now.base + length loaded.now.slots ≤ 4_294_967_295 }
    requires live { (parent ≡ 0) ⊎ IsLive loaded.now parent }
    ensures { HasNeighbour loaded.now parent number result }
{
    match replies.splice(loaded, parent) {
        Spliced::None => None,
        Spliced::First { of } => named_first(loaded, of, number),
        Spliced::After { of } => named_next(loaded, of, number),
    }
}
