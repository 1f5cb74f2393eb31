//! What a command that was decided changes of an area.

use crate::{Head, LoadedMessage, Mark, Plan};

/// Other fields for the header of the live message at a place of the index, counted from 0.
#[derive(Clone, Copy, Debug)]
pub struct HeadAt {
    pub place: usize,
    pub head: Head,
}

/// What a command that was decided changes of an area. What becomes of the area as it is loaded, of its files, of its texts and of
/// what users see follows from it. Modcounter and activemsgs follow too, and are none of it.
#[derive(Drop)]
pub enum Change {
    /// Nothing: the command was refused, it looks, or it relinks an area that is linked.
    Nothing,
    /// A message behind the others. The header of its neighbour, where it has one, names it.
    Posted {
        message: LoadedMessage,
        neighbour: Option<HeadAt>,
    },
    /// The header of a message has the traces of a reading.
    Headed {
        at: HeadAt,
    },
    /// The message at this place has another subject and another text; its header and its text come behind the others.
    Edited {
        place: usize,
        message: LoadedMessage,
    },
    /// The message at this place is killed.
    Killed {
        place: usize,
    },
    /// The headers of all messages have the links of a plan.
    Relinked {
        plan: Plan,
    },
    /// The mark at this place is another; where there is none, it comes behind the others.
    Marked {
        place: Option<usize>,
        mark: Mark,
    },
    /// The area is packed: it has this base, and the links of this plan.
    Packed {
        plan: Plan,
        base: u32,
    },
}
