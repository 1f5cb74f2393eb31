//! The index: its lists and its room.
ghost use Rattle.std.specs.Prelude.{◌≡◌, ◌⊎◌, ◌+◌, ◌<◌, ◌≤◌, ℕ, [], List, None, Some, max, length, is_none, is_some, IfOk, OnOk, OnErr};
ghost use Rattle.jb_bytes.specs.declared.subfield.TheConstants.{MSGID};
ghost use Rattle.jb_link.specs.Ids.{lent};
ghost use Rattle.jb_state.specs.LiveSlots.{IsLive, linkables};
ghost use Rattle.jb_link.specs.Splice.{IsSplice, spliced};
ghost use Rattle.jb_state.specs.Links.{last_reply_of, parent_at, parent_for};
ghost use Rattle.jb_state.specs.State.{state_of};
ghost use Rattle.jb_state.specs.declared.loaded.Loaded.{Loaded};
ghost use Rattle.jb_link.specs.IdLists.{IsIdList};
ghost use Rattle.jb_link.specs.Index.{HasSameLists, IsIndexOf};
ghost use Rattle.jb_link.specs.IndexLaws.{IsIndexAfterKill, IsIndexBefore};
ghost use Rattle.jb_link.specs.Orphans.{orphans_of};
ghost use Rattle.jb_link.specs.Replied.{IsLastReply};
ghost use Rattle.jb_link.specs.Thread.{thread_of};

use crate::found::{id_at, message_at};
use crate::orphans::{Orphan, put_by_id, put_by_number};
use crate::splicing::Spliced;
use crate::threads::{numbers_with_root, roots_by_place};
use crate::{Numbers, id_lists, kept, keys};
use jb_base::{MSGID, OutOfMemory, REPLYID};
use jb_state::Loaded;
use jb_tiered::Tiered;
use std::alloc::Global;
use std::marker::Model;

/// The index of an area's replies, and room for so many messages more.
pub struct Replies {
    ids: Tiered<u32>,
    answers: Tiered<u32>,
    kept: Tiered<(u32, u32)>,
    room: u32,
}

// Whoever lets go of one does so in one call.
impl Drop for Replies {
    fn drop(self) {
        let Replies {
            ids: _ids,
            answers: _answers,
            kept: _kept,
            room: _room,
        } = self;
    }
}

impl Model for Replies {
    ghost use Rattle.jb_link.specs.Index.{ReplyIndex};

    ghost Value = { ReplyIndex };

    ghost use Rattle.jb_link.specs.Inside.{HasListRoom, reply_index_of};

    ghost view = { reply_index_of };

    ghost invariant = { HasListRoom };
}

impl Replies {
    /// The index of this area, with no room for more. Its cost is that of three sorts.
    pub fn of(alloc: Global, loaded: &Loaded) -> Result<Replies, OutOfMemory>
        requires { loaded.now.base + length loaded.now.slots ≤ 4_294_967_295 }
        ensures index { IfOk result (λ replies. IsIndexOf replies loaded.now) }
        ensures room { IfOk result (λ replies. replies.room ≡ 0) }
    {
        let ids = keys::ordered(alloc, loaded, MSGID)?;
        let answers = keys::ordered(alloc, loaded, REPLYID)?;
        let kept = kept::ordered(alloc, loaded)?;
        Ok(Replies {
            ids,
            answers,
            kept,
            room: 0,
        })
    }

    /// An index with the same lists, so of each area of which this is one, and room for so many messages more. Its cost is
    /// that of a copy: nothing is sorted.
    pub fn copied(&self, alloc: Global, more: u32) -> Result<Replies, OutOfMemory>
        ensures lists { IfOk result (λ copy. HasSameLists self.now copy) }
        ensures room { IfOk result (λ copy. copy.room ≡ more) }
    {
        let ids = self.ids.copied(alloc, more as usize)?;
        let answers = self.answers.copied(alloc, more as usize)?;
        let kept = self.kept.copied(alloc, more as usize)?;
        Ok(Replies {
            ids,
            answers,
            kept,
            room: more,
        })
    }

    /// The parent of a live message with this number, this first REPLYID and this ReplyTo in its header, or 0 where it
    /// has none. With a REPLYID it is the lowest live lower-numbered message whose first MSGID has the same bytes, without
    /// one the kept number, where that is live and lower (JAM, "Reply linking"). One search at most.
    pub fn parent(&self, loaded: &Loaded, number: u32, reply: Option<&[u8]>, kept: u32) -> u32
        requires { IsIndexOf self.now loaded.now }
        ensures found { (texts : List ℕ)
            → result ≡ parent_for (linkables texts loaded.now) number (lent reply.entry) kept }
        ensures live { (result ≡ 0) ⊎ IsLive loaded.now result }
    {
        match reply {
            Some(id) => lower_with(loaded, &self.ids, number, id),
            None => number_if_lower(loaded, number, kept),
        }
    }

    /// The header that one more reply to `parent` changes beside its own; 0 is no parent. Three searches at most.
    pub fn splice(&self, loaded: &Loaded, parent: u32) -> Spliced
        requires index { IsIndexOf self.now loaded.now }
        requires base { 1 ≤ loaded.now.base }
        requires numbers { loaded.now.base + length loaded.now.slots ≤ 4_294_967_295 }
        requires live { (parent ≡ 0) ⊎ IsLive loaded.now parent }
        ensures named { (texts : List ℕ) → result ≡ spliced (linkables texts loaded.now) parent }

        // A post changes just that in the slots that stand there.
        ensures changes { (texts : List ℕ) → IsSplice (state_of texts loaded.now) parent result }
    {
        if parent == 0 {
            return Spliced::None;
        }
        let last = self.last_reply(loaded, parent);
        if last == 0 {
            Spliced::First { of: parent }
        } else {
            Spliced::After { of: last }
        }
    }

    /// The greatest live number whose parent is this live message, or 0.
    fn last_reply(&self, loaded: &Loaded, parent: u32) -> u32
        requires index { IsIndexOf self.now loaded.now }
        requires base { 1 ≤ loaded.now.base }
        requires numbers { loaded.now.base + length loaded.now.slots ≤ 4_294_967_295 }
        requires live { IsLive loaded.now parent }
        ensures { result ≡ last_reply_of (linkables [] loaded.now) parent }
    {
        self.last_by_id(loaded, parent)
            .max(self.last_by_number(loaded, parent))
    }

    /// The last reply to this live message that has a REPLYID, or 0. Where a lower message has the same MSGID, that one
    /// has all the replies.
    fn last_by_id(&self, loaded: &Loaded, parent: u32) -> u32
        requires index { IsIndexOf self.now loaded.now }
        requires base { 1 ≤ loaded.now.base }
        requires numbers { loaded.now.base + length loaded.now.slots ≤ 4_294_967_295 }
        requires live { IsLive loaded.now parent }
        ensures { IsLastReply is_some loaded.now parent result }
    {
        let Some(id) = id_at(loaded, MSGID, parent) else {
            return 0;
        };
        if id_lists::least_with(loaded, MSGID, &self.ids, id) != Some(parent) {
            return 0;
        }
        let last = id_lists::greatest_with(loaded, REPLYID, &self.answers, id).unwrap_or(0);
        if last > parent { last } else { 0 }
    }

    /// The last reply to this live message that has no REPLYID, or 0.
    fn last_by_number(&self, loaded: &Loaded, parent: u32) -> u32
        requires index { IsIndexOf self.now loaded.now }
        requires base { 1 ≤ loaded.now.base }
        requires numbers { loaded.now.base + length loaded.now.slots ≤ 4_294_967_295 }
        requires live { IsLive loaded.now parent }
        ensures { IsLastReply is_none loaded.now parent result }
    {
        kept::last_with(&self.kept, parent).unwrap_or(0)
    }

    /// The live numbers whose thread begins with the same message as that of `number`, in rising order. Its cost is that of a
    /// search for each slot.
    pub fn thread(
        &self,
        alloc: Global,
        loaded: &Loaded,
        number: u32,
    ) -> Result<Numbers, OutOfMemory>
        requires index { IsIndexOf self.now loaded.now }
        requires base { 1 ≤ loaded.now.base }
        requires numbers { loaded.now.base + length loaded.now.slots ≤ 4_294_967_295 }
        requires live { IsLive loaded.now number }
        ensures { (texts : List ℕ) → IfOk result (λ numbers.
            numbers ≡ thread_of (linkables texts loaded.now) number) }
    {
        let roots = roots_by_place(alloc, self, loaded)?;
        let root = roots[(number - loaded.base) as usize];
        let slots = loaded.slots.as_slice();
        let numbers = numbers_with_root(alloc, loaded.base, slots, roots.as_slice(), root)?;
        Ok(Numbers::from(numbers))
    }

    /// The parent of the live message with this number, or 0 where there is none. One search at most.
    pub(crate) fn parent_at(&self, loaded: &Loaded, number: u32) -> u32
        requires { IsIndexOf self.now loaded.now }
        ensures found { result ≡ parent_at (linkables [] loaded.now) number }
        ensures below { (result ≡ 0) ⊎ (loaded.now.base ≤ result) × (result < number) }
    {
        match message_at(loaded, number) {
            Some(message) => self.parent(
                loaded,
                number,
                message.subfields.first(REPLYID),
                message.head.reply_to,
            ),
            None => 0,
        }
    }

    /// The live messages whose parent is this live message, in rising order of their numbers, each with the parent that it has
    /// once that message is gone. Its cost is that of six searches, a step for each that it finds, and a sort of those.
    pub fn orphans(
        &self,
        alloc: Global,
        loaded: &Loaded,
        number: u32,
    ) -> Result<Vec<Orphan>, OutOfMemory>
        requires index { IsIndexOf self.now loaded.now }
        requires base { 1 ≤ loaded.now.base }
        requires numbers { loaded.now.base + length loaded.now.slots ≤ 4_294_967_295 }
        requires live { IsLive loaded.now number }
        ensures { IfOk result (λ orphans. orphans.items ≡ orphans_of (linkables [] loaded.now) number) }
    {
        let mut orphans = Vec::new(alloc);
        put_by_id(loaded, &self.ids, &self.answers, number, &mut orphans)?;
        put_by_number(loaded, &self.kept, number, &mut orphans)?;
        orphans.sort_unstable_by_key(|orphan| orphan.number);
        Ok(orphans)
    }

    /// Makes room for so many messages more, where there is less; where there is, it takes no memory. For want of
    /// memory the lists and the room stay as they were.
    pub fn reserve(&mut self, more: u32) -> Result<(), OutOfMemory>
        ensures lists { HasSameLists self.old self.new }
        ensures index { (loaded : Loaded) → IsIndexOf self.old loaded → IsIndexOf self.new loaded }
        ensures ok { OnOk result (self.new.room ≡ max self.old.room more) }
        ensures err { OnErr result (self.new.room ≡ self.old.room) }
    {
        self.ids.reserve(more as usize)?;
        self.answers.reserve(more as usize)?;
        self.kept.reserve(more as usize)?;
        self.room = self.room.max(more);
        Ok(())
    }

    /// Puts the last message of the area into the index, after it came. It takes no memory, and makes three searches at
    /// most and an insertion into each list, of which `jb_tiered` tells the cost.
    pub fn posted(&mut self, loaded: &Loaded)
        requires index { IsIndexBefore self.old loaded.now }
        requires numbers { loaded.now.base + length loaded.now.slots ≤ 4_294_967_295 }
        requires room { 0 < self.old.room }
        ensures index { IsIndexOf self.new loaded.now }
        ensures room { self.new.room + 1 ≡ self.old.room }
    {
        let number = loaded.base + (loaded.slots.as_slice().len() as u32 - 1);
        id_lists::put(loaded, MSGID, &mut self.ids, number);
        id_lists::put(loaded, REPLYID, &mut self.answers, number);
        kept::put(loaded, &mut self.kept, number);
        self.room -= 1;
    }

    /// Takes a message out of the index, before it is killed in the area. It takes no memory, and costs what `posted`
    /// does.
    pub fn killed(&mut self, loaded: &Loaded, number: u32)
        requires index { IsIndexOf self.old loaded.now }
        requires number { loaded.now.base ≤ number }
        ensures index { IsIndexAfterKill self.new loaded.now number }
        ensures room { self.new.room ≡ self.old.room }
    {
        id_lists::take_out(loaded, MSGID, &mut self.ids, number);
        id_lists::take_out(loaded, REPLYID, &mut self.answers, number);
        kept::take_out(loaded, &mut self.kept, number);
    }
}

/// The least live number below this one whose MSGID has these bytes, or 0.
fn lower_with(loaded: &Loaded, ids: &Tiered<u32>, number: u32, id: &[u8]) -> u32
    requires { IsIdList MSGID loaded.now ids.now.items }
    ensures found { (kept : ℕ) → result ≡ parent_for (linkables [] loaded.now) number (Some id.now) kept }
    ensures live { (result ≡ 0) ⊎ IsLive loaded.now result }
{
    match id_lists::least_with(loaded, MSGID, ids, id) {
        Some(found) if found < number => found,
        _ => 0,
    }
}

/// The kept number where it is a live one below this, or 0.
fn number_if_lower(loaded: &Loaded, number: u32, kept: u32) -> u32
    ensures found { result ≡ parent_for (linkables [] loaded.now) number None kept }
    ensures live { (result ≡ 0) ⊎ IsLive loaded.now result }
{
    if kept < number && message_at(loaded, kept).is_some() {
        kept
    } else {
        0
    }
}
