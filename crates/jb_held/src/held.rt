//! What an open area keeps of its files in memory.
ghost use Rattle.std.specs.Prelude.{◌≡◌, ◌≤◌, ◌+◌, length, IfOk};
ghost use Rattle.std.specs.Int.{is_power_of_two};
ghost use Rattle.jb_limits.specs.declared.limits.TheConstants.{MOST_MARKS, MOST_SLOTS};
ghost use Rattle.jb_link.specs.Index.{IsIndexOf};
ghost use Rattle.jb_state.specs.Change.{Fits, after, live_messages};
ghost use Rattle.jb_state.specs.Marks.{mark_of};
ghost use Rattle.jb_state.specs.Packed.{new_base, packed};
ghost use Rattle.jb_state.specs.Places.{IsPlaceOf};
ghost use Rattle.jb_state.specs.Room.{IsWider};
ghost use Rattle.jb_state.specs.Sound.{IsSound};
ghost use Rattle.jb_state.specs.declared.change.Change.TheVariants.{Edited, Headed, Killed, Marked, Packed, Posted, Relinked};
ghost use Rattle.jb_held.specs.Pending.{BringsPacked, BringsWhere, BringsWider, BringsRoom, MayApply};

use crate::applying::{
    count_change, kill_message, post_message, replace_message, set_head, set_loaded_mark, set_plan,
};
use crate::indexes::{count_live, mark_index_of, put_index, replies_of, room_behind};
use crate::pending::{Pending, Room};
use jb_base::OutOfMemory;
use jb_link::Replies;
use jb_marks::MarkIndex;
use jb_pack::pack_loaded;
use jb_state::{Change, HeadAt, Links, Loaded, LoadedMessage, Mark, SlotRoom};
use std::alloc::Global;
use std::marker::Model;

/// What an open area keeps of its files in memory: all but the texts. Contracts see the area as it is loaded. Beside it stand
/// how many messages are live, the places of the marks by their users, four bytes each, and the replies by what they answer.
/// There is room for as many marks as an area may have; a post and a pack bring the room that they need, so that a change takes no
/// memory. The marks themselves stand once, in what is loaded.
pub struct HeldArea {
    loaded: Loaded,
    live: u32,
    mark_index: MarkIndex,
    replies: Replies,
}

// Whoever lets go of one does so in one call.
impl Drop for HeldArea {
    fn drop(self) {
        let HeldArea {
            loaded: _loaded,
            live: _live,
            mark_index: _mark_index,
            replies: _replies,
        } = self;
    }
}

impl Model for HeldArea {
    ghost use Rattle.jb_state.specs.declared.loaded.Loaded.{Loaded};

    ghost Value = { Loaded };

    ghost use Rattle.jb_held.specs.Held.{IsKeptWhole};

    ghost view = { λ held. held.loaded };

    ghost invariant = { IsKeptWhole };
}

impl HeldArea {
    /// Keeps an area that was loaded. Its cost is that of four sorts.
    pub fn of(alloc: Global, loaded: Loaded) -> Result<HeldArea, OutOfMemory>
        requires few_slots { length loaded.slots ≤ MOST_SLOTS }
        requires few_marks { length loaded.marks ≤ MOST_MARKS }
        requires numbers { loaded.base + length loaded.slots ≤ 4_294_967_295 }
        ensures { IfOk result (λ held. held ≡ loaded) }
    {
        let mark_index = mark_index_of(alloc, &loaded)?;
        let replies = replies_of(alloc, &loaded)?;
        let live = count_live(loaded.slots.as_slice());
        Ok(HeldArea {
            loaded,
            live,
            mark_index,
            replies,
        })
    }

    /// The area without its texts.
    pub fn loaded(&self) -> &Loaded
        ensures { result.now ≡ self.now }
    {
        &self.loaded
    }

    /// How many messages are live. Nothing is counted.
    pub fn live(&self) -> u32
        ensures { result ≡ live_messages self.now }
    {
        self.live
    }

    /// How many messages are live after the change. Nothing is counted.
    pub fn live_after(&self, change: &Change) -> u32
        requires sound { IsSound MOST_SLOTS self.now }
        requires fits { Fits MOST_SLOTS change.now self.now }
        ensures { result ≡ live_messages (after change.now self.now) }
    {
        match change {
            Change::Nothing => self.live,
            Change::Posted { .. } => self.live + 1,
            Change::Headed { .. } => self.live,
            Change::Edited { .. } => self.live,
            Change::Killed { .. } => self.live - 1,
            Change::Relinked { .. } => self.live,
            Change::Marked { .. } => self.live,
            Change::Packed { .. } => self.live,
        }
    }

    /// The first mark of the user with this CRC of the name and this number. It looks at about as many marks as their number
    /// has binary digits.
    pub fn mark_of(&self, user_crc: u32, user_id: u32) -> Option<Mark>
        ensures { result ≡ mark_of user_crc user_id self.now.marks }
    {
        let marks = self.loaded.marks.as_slice();
        self.mark_index.find(marks, user_crc, user_id)
    }

    /// The place of that mark among the others, at the same cost.
    pub fn place_of(&self, user_crc: u32, user_id: u32) -> Option<usize>
        ensures { IsPlaceOf user_crc user_id self.now.marks result }
    {
        let marks = self.loaded.marks.as_slice();
        self.mark_index.place_of(marks, user_crc, user_id)
    }

    /// The replies by what they answer.
    pub fn replies(&self) -> &Replies
        ensures { IsIndexOf result.now self.now }
    {
        &self.replies
    }

    /// The memory that a change brings with it. Its cost is that of a copy of the index of the replies for a pack, and for a post
    /// where there are as many slots as a power of two; any other change takes none.
    pub fn room_for(&self, alloc: Global, change: &Change) -> Result<Room, OutOfMemory>
        requires sound { IsSound MOST_SLOTS self.now }
        requires fits { Fits MOST_SLOTS change.now self.now }
        ensures { IfOk result (λ room. BringsRoom change.now room self.now) }
    {
        match change {
            Change::Nothing => Ok(Room::none()),
            Change::Posted { .. } => self.room_for_post(alloc),
            Change::Headed { .. } => Ok(Room::none()),
            Change::Edited { .. } => Ok(Room::none()),
            Change::Killed { .. } => Ok(Room::none()),
            Change::Relinked { .. } => Ok(Room::none()),
            Change::Marked { .. } => Ok(Room::none()),
            Change::Packed { base, .. } => self.room_for_pack(alloc, *base),
        }
    }

    /// What a post brings: nothing, or where there are as many slots as a power of two the index of the replies, with more room, and
    /// more places for slots.
    fn room_for_post(&self, alloc: Global) -> Result<Room, OutOfMemory>
        requires sound { IsSound MOST_SLOTS self.now }
        ensures { IfOk result (λ room. BringsWhere (is_power_of_two (length self.now.slots)) room self.now) }
    {
        let taken = self.loaded.slots.as_slice().len() as u32;
        if taken.is_power_of_two() {
            self.more_room(alloc)
        } else {
            Ok(Room::none())
        }
    }

    /// A copy of the index of the replies, with more room, and more places for slots.
    fn more_room(&self, alloc: Global) -> Result<Room, OutOfMemory>
        requires sound { IsSound MOST_SLOTS self.now }
        ensures { IfOk result (λ room. BringsWider room self.now) }
    {
        let taken = self.loaded.slots.as_slice().len() as u32;
        let more = room_behind(taken);
        let replies = self.replies.copied(alloc, more)?;
        let slots = SlotRoom::new(alloc, taken + more)?;
        Ok(Room {
            replies: Some(replies),
            slots: Some(slots),
        })
    }

    /// What a pack brings, with this base: a copy of the index of the replies, as it is then.
    pub fn room_for_pack(&self, alloc: Global, base: u32) -> Result<Room, OutOfMemory>
        requires sound { IsSound MOST_SLOTS self.now }
        requires base { base ≡ new_base self.now }
        ensures { IfOk result (λ room. BringsPacked room self.now) }
    {
        let replies = self.replies_after_pack(alloc, base)?;
        Ok(Room {
            replies: Some(replies),
            slots: None,
        })
    }

    /// A copy of the index of the replies, as it is once the area is packed, with room for as many messages as the next power of
    /// two.
    fn replies_after_pack(&self, alloc: Global, base: u32) -> Result<Replies, OutOfMemory>
        requires sound { IsSound MOST_SLOTS self.now }
        requires base { base ≡ new_base self.now }
        ensures index { IfOk result (λ replies. IsIndexOf replies (packed self.now)) }
        ensures room { IfOk result (λ replies. IsWider
            (length (packed self.now).slots) (length (packed self.now).slots + replies.room)) }
    {
        let kept = self.loaded.slots.as_slice().len() as u32 - (base - self.loaded.base);
        self.replies.copied(alloc, room_behind(kept))
    }

    /// Does in the area what was decided over it. Takes no memory.
    pub fn apply(&mut self, pending: Pending)
        requires may { MayApply pending self.old }
        ensures { self.new ≡ after pending.change self.old }
    {
        let Pending { change, room } = pending;
        match change {
            Change::Nothing => {}
            Change::Posted { message, neighbour } => self.post(message, neighbour, room),
            Change::Headed { at } => self.change_head(at),
            Change::Edited { place, message } => self.edit(place, message),
            Change::Killed { place } => self.kill(place),
            Change::Relinked { plan } => self.relink(plan.as_slice()),
            Change::Marked { place, mark } => self.set_mark(place, mark),
            Change::Packed { plan, base } => self.pack(plan.as_slice(), base, room),
        }
    }

    /// Puts a message behind the others, in the room that it brings where there is none.
    fn post(&mut self, message: LoadedMessage, neighbour: Option<HeadAt>, room: Room)
        requires fits { Fits MOST_SLOTS (Posted message neighbour) self.old }
        requires room { BringsRoom (Posted message neighbour) room self.old }
        ensures { self.new ≡ after (Posted message neighbour) self.old }
    {
        let Room { replies, slots } = room;
        put_index(&mut self.replies, replies);
        post_message(
            &mut self.loaded,
            &mut self.replies,
            message,
            neighbour,
            slots,
        );
        self.live += 1;
        count_change(&mut self.loaded, self.live);
    }

    /// Writes these fields into the header of a message.
    fn change_head(&mut self, at: HeadAt)
        requires fits { Fits MOST_SLOTS (Headed at) self.old }
        ensures { self.new ≡ after (Headed at) self.old }
    {
        set_head(&mut self.loaded, at);
        count_change(&mut self.loaded, self.live);
    }

    /// Puts an edited message in its place. The count of live messages and the index of the replies stay as they are.
    fn edit(&mut self, place: usize, message: LoadedMessage)
        requires fits { Fits MOST_SLOTS (Edited place message) self.old }
        ensures { self.new ≡ after (Edited place message) self.old }
    {
        replace_message(&mut self.loaded, place, message);
        count_change(&mut self.loaded, self.live);
    }

    /// Kills the message at a place.
    fn kill(&mut self, place: usize)
        requires sound { IsSound MOST_SLOTS self.old }
        requires fits { Fits MOST_SLOTS (Killed place) self.old }
        ensures { self.new ≡ after (Killed place) self.old }
    {
        kill_message(&mut self.loaded, &mut self.replies, place);
        self.live -= 1;
        count_change(&mut self.loaded, self.live);
    }

    /// Writes the links of a plan.
    fn relink(&mut self, plan: &[Links])
        requires sound { IsSound MOST_SLOTS self.old }
        requires fits { Fits MOST_SLOTS (Relinked plan.now) self.old }
        ensures { self.new ≡ after (Relinked plan.now) self.old }
    {
        set_plan(&mut self.loaded, plan);
        count_change(&mut self.loaded, self.live);
    }

    /// Sets the mark at this place; where there is none, puts it behind the others, which moves at most the whole index of
    /// places.
    fn set_mark(&mut self, place: Option<usize>, mark: Mark)
        requires fits { Fits MOST_SLOTS (Marked place mark) self.old }
        ensures { self.new ≡ after (Marked place mark) self.old }
    {
        set_loaded_mark(&mut self.loaded, &mut self.mark_index, place, mark);
    }

    /// Packs the area with this base and these links, and takes the index of its replies that the pack brings.
    fn pack(&mut self, plan: &[Links], base: u32, room: Room)
        requires sound { IsSound MOST_SLOTS self.old }
        requires fits { Fits MOST_SLOTS (Packed plan.now base) self.old }
        requires room { BringsRoom (Packed plan.now base) room self.old }
        ensures { self.new ≡ after (Packed plan.now base) self.old }
    {
        let Room {
            replies,
            slots: _slots,
        } = room;
        let Some(replies) = replies else {
            unreachable!()
        };
        pack_loaded(&mut self.loaded, plan, base);
        self.replies = replies;
    }
}
