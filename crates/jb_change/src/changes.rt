//! A change of an area, as a redo.
ghost use Rattle.std.specs.Prelude.{◌≡◌, ◌<◌, [], length, None, OnErr, OnOk};
ghost use Rattle.jb_change.specs.Headers.{Updates, UpdatesBut};
ghost use Rattle.jb_change.specs.Post.{HasNextNumber};
ghost use Rattle.jb_change.specs.Put.{IsMoved, IsNoPacking, IsShort, IsTextOf, LeavesRest, NumbersPosted};
ghost use Rattle.jb_change.specs.Ready.{HasRoomInAll, IsCleared};
ghost use Rattle.jb_limits.specs.declared.limits.TheConstants.{MOST_MARKS, MOST_SLOTS};
ghost use Rattle.jb_state.specs.Change.{Fits, FitsBehind, IsNeighbourOf, after, live_messages};
ghost use Rattle.jb_state.specs.Places.{IsPlaceOf};
ghost use Rattle.jb_state.specs.Sound.{IsSound};
ghost use Rattle.jb_state.specs.declared.change.Change.TheVariants.{Marked, Posted};
ghost use Rattle.jb_redo.specs.Changes.{IsWritable, KeepsRoom};

use crate::area::{put_counts, put_mark};
use crate::editing::put_edited;
use crate::emptying::{clear, empty, make_small_room};
use crate::heading::{put_headed, put_killed, put_neighbour};
use crate::marking::put_new_mark;
use crate::posting::put_post;
use crate::relinking::put_relinked;
use jb_base::OutOfMemory;
use jb_disk::Redo;
use jb_state::{Change, HeadAt, Loaded, LoadedMessage, Mark};
use std::alloc::Global;

/// Puts the mark in its place, or behind the others.
fn put_marked(redo: &mut Redo, loaded: &Loaded, place: Option<usize>, mark: &Mark)
    requires cleared { IsCleared redo.old }
    requires sound { IsSound MOST_SLOTS loaded.now }
    requires placed { IsPlaceOf mark.now.user_crc mark.now.user_id loaded.now.marks place }
    requires few { place ≡ None → length loaded.now.marks < MOST_MARKS }
    ensures makes { Updates redo.new loaded.now (after (Marked place mark.now) loaded.now) [] }
    ensures leaves { LeavesRest redo.new loaded.now (Marked place mark.now) }
    ensures writable { IsWritable redo.new }
    ensures kept { KeepsRoom redo.old redo.new }
{
    match place {
        Some(place) => put_mark(redo, place as u32, mark),
        None => put_new_mark(redo, loaded.marks.as_slice().len() as u32, mark),
    }
}

/// Puts a change that takes no memory into a redo, in place of what it holds; `active` messages are live after it.
pub fn put_short(redo: &mut Redo, loaded: &Loaded, change: &Change, active: u32)
    requires room { HasRoomInAll redo.old }
    requires sound { IsSound MOST_SLOTS loaded.now }
    requires fits { Fits MOST_SLOTS change.now loaded.now }
    requires kind { IsShort change.now }
    requires active { active ≡ live_messages (after change.now loaded.now) }

    // Of whatever files hold the area it makes files that hold the area after the change, and it writes no byte but those that
    // the change may write.
    ensures makes { Updates redo.new loaded.now (after change.now loaded.now) [] }
    ensures leaves { LeavesRest redo.new loaded.now change.now }
    ensures writable { IsWritable redo.new }

    // Its room stays.
    ensures room { HasRoomInAll redo.new }
    ensures kept { KeepsRoom redo.old redo.new }
{
    clear(redo);
    match change {
        Change::Headed { at } => put_headed(redo, loaded, *at, active),
        Change::Killed { place } => put_killed(redo, loaded, *place, active),
        Change::Marked { place, mark } => put_marked(redo, loaded, *place, mark),
        Change::Nothing => {}
        Change::Posted { .. } | Change::Edited { .. } => unreachable!(),
        Change::Relinked { .. } | Change::Packed { .. } => unreachable!(),
    }
}

/// Puts the message with its text behind the others, the neighbour's links into its header, and the counts.
fn put_posted(
    alloc: Global,
    redo: &mut Redo,
    loaded: &Loaded,
    message: &LoadedMessage,
    neighbour: Option<HeadAt>,
    text: &[u8],
    active: u32,
) -> Result<(), OutOfMemory>
    requires sound { IsSound MOST_SLOTS loaded.now }
    requires behind { FitsBehind MOST_SLOTS message.now loaded.now }
    requires neighbour { IsNeighbourOf neighbour loaded.now }
    requires text { message.now.text_len ≡ length text.now }
    requires active { active ≡ live_messages (after (Posted message.now neighbour) loaded.now) }
    ensures makes { OnOk result (Updates redo.new loaded.now
        (after (Posted message.now neighbour) loaded.now) text.now) }
    ensures leaves { OnOk result (LeavesRest redo.new loaded.now (Posted message.now neighbour)) }
    ensures numbered { OnOk result (HasNextNumber redo.new loaded.now message.now) }
    ensures writable { OnOk result (IsWritable redo.new) }
    ensures kept { KeepsRoom redo.old redo.new }
{
    empty(redo);
    put_post(alloc, redo, loaded, message, text)?;
    put_neighbour(redo, loaded, neighbour);
    put_counts(redo, loaded.counter.wrapping_add(1), active);
    Ok(())
}

/// Puts a change into a redo, in place of what it holds; `active` messages are live after it, and `text` is that of a post or an edit.
pub fn put(
    alloc: Global,
    redo: &mut Redo,
    loaded: &Loaded,
    change: &Change,
    text: &[u8],
    active: u32,
) -> Result<(), OutOfMemory>
    requires sound { IsSound MOST_SLOTS loaded.now }
    requires fits { Fits MOST_SLOTS change.now loaded.now }
    requires kind { IsNoPacking change.now }
    requires text { IsTextOf change.now text.now }
    requires active { active ≡ live_messages (after change.now loaded.now) }

    // Of whatever files hold the area it makes files that hold the area after the change, and it writes no byte but those that
    // the change may write.
    ensures makes { OnOk result (UpdatesBut (IsMoved change.now) redo.new loaded.now
        (after change.now loaded.now) text.now) }
    ensures leaves { OnOk result (LeavesRest redo.new loaded.now change.now) }
    ensures numbered { OnOk result (NumbersPosted redo.new loaded.now change.now) }
    ensures writable { OnOk result (IsWritable redo.new) }

    // Its room stays.
    ensures room { HasRoomInAll redo.old → HasRoomInAll redo.new }
    ensures kept { KeepsRoom redo.old redo.new }
{
    match change {
        Change::Nothing => {
            empty(redo);
            Ok(())
        }
        Change::Posted { message, neighbour } => {
            put_posted(alloc, redo, loaded, message, *neighbour, text, active)
        }
        Change::Edited { place, message } => {
            put_edited(alloc, redo, loaded, *place, message, text, active)
        }
        Change::Relinked { plan } => put_relinked(redo, loaded, plan.as_slice(), active),
        Change::Packed { .. } => unreachable!(),
        _ => {
            make_small_room(redo)?;
            put_short(redo, loaded, change, active);
            Ok(())
        }
    }
}
