//! The header of one message gets other fields: a reading, a kill, and a new answer behind it.
ghost use Rattle.std.specs.Prelude.{◌≡◌, ◌≤◌, ◌+◌, ℕ, [], List, Option};
ghost use Rattle.jb_change.specs.Headers.{Updates};
ghost use Rattle.jb_change.specs.Makes.{Makes};
ghost use Rattle.jb_change.specs.Post.{HasNextNumber};
ghost use Rattle.jb_change.specs.Put.{LeavesBut, LeavesRest, MayWrite};
ghost use Rattle.jb_change.specs.Ready.{IsCleared};
ghost use Rattle.jb_disk.specs.RedoView.{HasRoom, Spends};
ghost use Rattle.jb_limits.specs.declared.limits.TheConstants.{MOST_SLOTS};
ghost use Rattle.jb_state.specs.Change.{HasMessageAt, IsNeighbourOf, IsReadingOf, after, headed_where, live_messages};
ghost use Rattle.jb_state.specs.Loaded.{IsMessageAt, with_message_behind};
ghost use Rattle.jb_state.specs.Sound.{IsSound};
ghost use Rattle.jb_state.specs.declared.change.Change.TheVariants.{Headed, Killed, Posted};
ghost use Rattle.jb_state.specs.declared.loaded.LoadedMessage.{LoadedMessage};
ghost use Rattle.jb_redo.specs.Changes.{IsWritable, KeepsRoom, record_size};

use crate::area::put_counts;
use crate::header::{put_kill, put_links, put_reading};
use jb_disk::Redo;
use jb_state::{HeadAt, Loaded, LoadedMessage, LoadedSlot};

/// The live message at this place of the index.
fn message_at(loaded: &Loaded, place: usize) -> &LoadedMessage
    requires { HasMessageAt place loaded.now }
    ensures { IsMessageAt loaded.now place result.now }
{
    let Some(LoadedSlot::Live(message)) = loaded.slots.as_slice().get(place) else {
        unreachable!()
    };
    message
}

/// Puts the traces of a reading into the header of a message, and the counts.
pub(crate) fn put_headed(redo: &mut Redo, loaded: &Loaded, at: HeadAt, active: u32)
    requires cleared { IsCleared redo.old }
    requires sound { IsSound MOST_SLOTS loaded.now }
    requires fits { IsReadingOf at loaded.now }
    requires active { active ≡ live_messages (after (Headed at) loaded.now) }
    ensures makes { Updates redo.new loaded.now (after (Headed at) loaded.now) [] }
    ensures leaves { LeavesRest redo.new loaded.now (Headed at) }
    ensures writable { IsWritable redo.new }
    ensures kept { KeepsRoom redo.old redo.new }
{
    let header_at = message_at(loaded, at.place).header_at;
    put_reading(redo, header_at, &at.head);
    put_counts(redo, loaded.counter.wrapping_add(1), active);
}

/// Puts the bit of a kill into the header of a message, and the counts.
pub(crate) fn put_killed(redo: &mut Redo, loaded: &Loaded, place: usize, active: u32)
    requires cleared { IsCleared redo.old }
    requires sound { IsSound MOST_SLOTS loaded.now }
    requires fits { HasMessageAt place loaded.now }
    requires active { active ≡ live_messages (after (Killed place) loaded.now) }
    ensures makes { Updates redo.new loaded.now (after (Killed place) loaded.now) [] }
    ensures leaves { LeavesRest redo.new loaded.now (Killed place) }
    ensures writable { IsWritable redo.new }
    ensures kept { KeepsRoom redo.old redo.new }
{
    let message = message_at(loaded, place);
    put_kill(redo, message.header_at, message.head.attribute);
    put_counts(redo, loaded.counter.wrapping_add(1), active);
}

/// Puts the neighbour's links into its header, where there is a neighbour.
pub(crate) fn put_neighbour(redo: &mut Redo, loaded: &Loaded, neighbour: Option<HeadAt>)
    requires room { HasRoom 0 1 12 redo.old }
    requires sound { IsSound MOST_SLOTS loaded.now }
    requires fits { IsNeighbourOf neighbour loaded.now }

    // Where the change made the area with a message behind, that area's neighbour is linked now.
    ensures makes { (message : LoadedMessage) (text : List ℕ)
        → Updates redo.old loaded.now (with_message_behind message loaded.now) text
        → Updates redo.new loaded.now (with_message_behind message (headed_where neighbour loaded.now)) text }
    ensures leaves { (message : LoadedMessage) (text : List ℕ)
        → Updates redo.old loaded.now (with_message_behind message loaded.now) text
        → LeavesBut redo.old loaded.now (MayWrite loaded.now (Posted message neighbour))
        → LeavesBut redo.new loaded.now (MayWrite loaded.now (Posted message neighbour)) }
    ensures numbered { (message : LoadedMessage) (text : List ℕ)
        → Makes redo.old loaded.now (with_message_behind message loaded.now) text
        → HasNextNumber redo.old loaded.now message → HasNextNumber redo.new loaded.now message }

    // What it takes of the redo and of the journal.
    ensures lengths { redo.new.lengths ≡ redo.old.lengths }
    ensures room { Spends 0 1 12 redo.old redo.new }
    ensures kept { KeepsRoom redo.old redo.new }
    ensures size { record_size redo.new ≤ record_size redo.old + 32 }
{
    if let Some(one) = neighbour {
        let header_at = message_at(loaded, one.place).header_at;
        let head = one.head;
        put_links(
            redo,
            header_at,
            head.reply_to,
            head.reply_first,
            head.reply_next,
        );
    }
}
