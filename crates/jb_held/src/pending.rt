//! A change that is to be done in an area.
ghost use Rattle.std.specs.Prelude.{◌≡◌};
ghost use Rattle.jb_held.specs.Pending.{no_room};

use jb_link::Replies;
use jb_state::{Change, SlotRoom};

/// The memory that a change brings with it, so that it takes none when it is done: a pack the index of the area's replies then; a
/// post, where there are as many slots as a power of two, the index with more room, and more places for slots; any other change nothing.
#[derive(Drop)]
pub struct Room {
    pub replies: Option<Replies>,
    pub slots: Option<SlotRoom>,
}

impl Room {
    /// None, which takes no memory.
    pub fn none() -> Room
        ensures { result ≡ no_room }
    {
        Room {
            replies: None,
            slots: None,
        }
    }
}

/// A change that was decided, with the memory that it brings.
#[derive(Drop)]
pub struct Pending {
    pub change: Change,
    pub room: Room,
}
