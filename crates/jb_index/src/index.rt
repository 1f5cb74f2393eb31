//! The index of an area.
ghost use Rattle.std.specs.Prelude.{◌≡◌, ◌+◌, ◌≤◌, ℕ, [], List, IfOk, length, map, take};
ghost use Rattle.jb_limits.specs.declared.limits.TheConstants.{MOST_MARKS};
ghost use Rattle.jb_index.specs.Answer.{answer_to, figures_to, first_from, last_of, high_of, listed_to, mark_in, received_by, thread_to, unread_to};
ghost use Rattle.jb_index.specs.Edit.{absorbed, edited};
ghost use Rattle.jb_index.specs.Index.{index_of, parents_in};
ghost use Rattle.jb_index.specs.declared.op.OpEdit.TheVariants.{Put, Drop as Dropping, Parent, Attribute, Subject, Mark as Marking, Reset};
ghost use Rattle.jb_state.specs.Sound.{IsSound};
ghost use Rattle.jb_state.specs.State.{state_of};

use crate::editing::{put, refill, remove, set_attribute, set_parent, set_subject};
use crate::listing::{count_wanted, first_wanted};
use crate::making::summaries_of;
use crate::shown::Wanted;
use crate::threads::first_of_thread;
use crate::{Op, OpEdit};
use jb_base::{AreaRules, MOST_MARKS, OutOfMemory, User};
use jb_crc::jam_crc;
use jb_marks::Marks;
use jb_state::{Answer, Figures, Loaded, Mark, Question, Short, Summaries, Summary};
use jb_tiered::Tiered;
use std::alloc::Global;
use std::marker::Model;

/// The summaries of an area's live messages in rising order of their numbers, its marks, its base number and next number,
/// and its rules. There is room for as many summaries as the rules have slots, and for 65,000 marks.
pub struct Index {
    summaries: Tiered<Summary>,
    marks: Marks,
    base: u32,
    next: u32,
    rules: AreaRules,
    alloc: Global,
}

// Whoever lets go of one does so in one call.
impl Drop for Index {
    fn drop(self) {
        let Index {
            summaries: _summaries,
            marks: _marks,
            base: _base,
            next: _next,
            rules: _rules,
            alloc: _alloc,
        } = self;
    }
}

impl Model for Index {
    ghost use Rattle.jb_index.specs.Index.{AreaIndex};

    ghost Value = { AreaIndex };

    ghost use Rattle.jb_index.specs.Inside.{IsRising, index_in};

    ghost view = { index_in };

    ghost invariant = { IsRising };
}

/// These marks, with room for as many as an area may have.
fn roomy_marks(alloc: Global, from: &[Mark]) -> Result<Marks, OutOfMemory>
    requires { length from.now ≤ MOST_MARKS }
    ensures marks { IfOk result (λ marks. marks.marks ≡ from.now) }
    ensures room { IfOk result (λ marks. length marks.marks + marks.room ≡ MOST_MARKS) }
{
    let mut marks = Marks::copy(alloc, from)?;
    marks.reserve(MOST_MARKS - from.len() as u32)?;
    Ok(marks)
}

impl Index {
    /// The index of this area. `parents` has the parent of each live message, in rising order of their numbers, as
    /// `jb_link::relink_plan` gives them.
    pub fn of(
        alloc: Global,
        loaded: &Loaded,
        rules: &AreaRules,
        parents: &[u32],
    ) -> Result<Index, OutOfMemory>
        requires sound { IsSound rules.now.slots loaded.now }
        requires parents { parents.now ≡ parents_in (state_of [] loaded.now) }
        ensures { (texts : List ℕ) → IfOk result (λ index.
            index ≡ index_of rules.now (state_of texts loaded.now)) }
    {
        let slots = loaded.slots.as_slice();
        let mut summaries = summaries_of(alloc, loaded.base, slots, parents)?;
        summaries.reserve(rules.slots as usize - summaries.len())?;
        let marks = roomy_marks(alloc, loaded.marks.as_slice())?;
        let rules = rules.copy(alloc)?;
        Ok(Index {
            summaries,
            marks,
            base: loaded.base,
            next: loaded.base + slots.len() as u32,
            rules,
            alloc,
        })
    }

    /// The same index once more, with as much room. Its cost is that of a copy of memory.
    pub fn copied(&self, alloc: Global) -> Result<Index, OutOfMemory>
        ensures { IfOk result (λ copy. copy ≡ self.now) }
    {
        let more = self.rules.slots as usize - self.summaries.len();
        Ok(Index {
            summaries: self.summaries.copied(alloc, more)?,
            marks: roomy_marks(alloc, self.marks.as_slice())?,
            base: self.base,
            next: self.next,
            rules: self.rules.copy(alloc)?,
            alloc,
        })
    }

    /// Does what an op says, edit by edit. It takes no memory and nothing in it fails: an edit that does not fit the room
    /// changes nothing, and one of an area's own changes always fits.
    pub fn absorb(&mut self, op: &Op)
        ensures { self.new ≡ absorbed self.old op.now }
    {
        for edit in op.as_slice() {
            self.apply(edit);
        }
    }

    /// Does one edit.
    fn apply(&mut self, edit: &OpEdit)
        ensures { self.new ≡ edited self.old edit.now }
    {
        match edit {
            OpEdit::Put(one) => self.put(one),
            OpEdit::Drop { number } => self.drop_number(*number),
            OpEdit::Parent { number, parent } => self.set_parent(*number, *parent),
            OpEdit::Attribute { number, attribute } => self.set_attribute(*number, *attribute),
            OpEdit::Subject { number, subject } => self.set_subject(*number, *subject),
            OpEdit::Base { base } => self.base = *base,
            OpEdit::Mark(mark) => self.set_mark(mark),
            OpEdit::Reset(other) => self.reset(other),
        }
    }

    /// Puts a summary in the place of the one with its number, or between the others, where there is room.
    fn put(&mut self, one: &Summary)
        ensures { self.new ≡ edited self.old (Put one.now) }
    {
        if put(&mut self.summaries, self.rules.slots, one) {
            self.next = self.next.max(one.number.saturating_add(1));
        }
    }

    /// Takes the summary with this number out.
    fn drop_number(&mut self, number: u32)
        ensures { self.new ≡ edited self.old (Dropping number) }
    {
        remove(&mut self.summaries, number);
    }

    /// Gives the message with this number another parent.
    fn set_parent(&mut self, number: u32, parent: u32)
        ensures { self.new ≡ edited self.old (Parent number parent) }
    {
        set_parent(&mut self.summaries, number, parent);
    }

    /// Gives the message with this number other bits of its attribute.
    fn set_attribute(&mut self, number: u32, attribute: u32)
        ensures { self.new ≡ edited self.old (Attribute number attribute) }
    {
        set_attribute(&mut self.summaries, number, attribute);
    }

    /// Gives the message with this number another subject.
    fn set_subject(&mut self, number: u32, subject: Short<72>)
        ensures { self.new ≡ edited self.old (Subject number subject) }
    {
        set_subject(&mut self.summaries, number, subject);
    }

    /// Sets a mark, where its pair has one or there is room.
    fn set_mark(&mut self, mark: &Mark)
        ensures { self.new ≡ edited self.old (Marking mark.now) }
    {
        let found = self.marks.find(mark.user_crc, mark.user_id);
        if found.is_some() || self.marks.as_slice().len() < MOST_MARKS as usize {
            self.marks.set(*mark);
        }
    }

    /// Has all that another index has, but for its rules, where there is room.
    fn reset(&mut self, other: &Index)
        ensures { self.new ≡ edited self.old (Reset other.now) }
    {
        if other.summaries.len() > self.rules.slots as usize {
            return;
        }
        refill(&mut self.summaries, &other.summaries);
        self.marks.replace(&other.marks);
        self.base = other.base;
        self.next = other.next;
    }

    /// The user's mark.
    fn mark(&self, user: &User) -> Option<Mark>
        ensures { result ≡ mark_in self.now user.now }
    {
        self.marks.find(jam_crc(user.name.as_slice()), user.id)
    }

    /// The number that the user's mark has as read last, or 0.
    fn last(&self, user: &User) -> u32
        ensures { result ≡ last_of (mark_in self.now user.now) }
    {
        match self.mark(user) {
            Some(mark) => mark.last,
            None => 0,
        }
    }

    /// The highest number that the user's mark has had, or 0.
    fn high(&self, user: &User) -> u32
        ensures { result ≡ high_of (mark_in self.now user.now) }
    {
        match self.mark(user) {
            Some(mark) => mark.high,
            None => 0,
        }
    }

    /// The first `most` messages that the user sees, with numbers from this one on.
    pub fn listed(&self, user: &User, from: u32, most: u32) -> Result<Summaries, OutOfMemory>
        ensures { IfOk result (λ found. found ≡ first_from from most (listed_to self.now user.now)) }
    {
        first_wanted(
            self.alloc,
            &self.summaries,
            &self.rules,
            user,
            Wanted::All,
            from,
            most,
        )
    }

    /// The first `most` messages that the user sees and has not read, with numbers from this one on: those above the number
    /// that the user's mark has as read last.
    pub fn unread(&self, user: &User, from: u32, most: u32) -> Result<Summaries, OutOfMemory>
        ensures { IfOk result (λ found. found ≡ first_from from most (unread_to self.now user.now)) }
    {
        first_wanted(
            self.alloc,
            &self.summaries,
            &self.rules,
            user,
            Wanted::Above(self.last(user)),
            from,
            most,
        )
    }

    /// The first `most` messages that the user sees and whose receiver is the user, with numbers from this one on.
    pub fn received(&self, user: &User, from: u32, most: u32) -> Result<Summaries, OutOfMemory>
        ensures { IfOk result (λ found. found ≡ first_from from most (received_by self.now user.now)) }
    {
        first_wanted(
            self.alloc,
            &self.summaries,
            &self.rules,
            user,
            Wanted::Received,
            from,
            most,
        )
    }

    /// The first `most` messages of the thread of this one that the user sees; none where the user does not see this one.
    pub fn thread(&self, user: &User, number: u32, most: u32) -> Result<Summaries, OutOfMemory>
        ensures { IfOk result (λ found. found ≡ take most (thread_to self.now user.now number)) }
    {
        first_of_thread(self.alloc, &self.summaries, &self.rules, user, number, most)
    }

    /// The answer to a question.
    pub fn ask(&self, user: &User, question: &Question) -> Result<Answer, OutOfMemory>
        ensures { IfOk result (λ answer. answer ≡ answer_to self.now user.now question.now) }
    {
        let found = match *question {
            Question::List { from, most } => self.listed(user, from, most)?,
            Question::Unread { from, most } => self.unread(user, from, most)?,
            Question::Thread { number, most } => self.thread(user, number, most)?,
            Question::To { from, most } => self.received(user, from, most)?,
            Question::Figures => return Ok(Answer::Figures(self.figures(user))),
        };
        Ok(Answer::Summaries(found))
    }

    /// How many messages the user has not read. It takes no memory.
    pub fn unread_count(&self, user: &User) -> u32
        ensures { result ≡ length (unread_to self.now user.now) }
    {
        count_wanted(
            &self.summaries,
            &self.rules,
            user,
            Wanted::Above(self.last(user)),
        )
    }

    /// The numbers of the area and of the user's mark. It takes no memory.
    pub fn figures(&self, user: &User) -> Figures
        ensures { result ≡ figures_to self.now user.now }
    {
        Figures {
            base: self.base,
            next: self.next,
            visible: count_wanted(&self.summaries, &self.rules, user, Wanted::All),
            unread: self.unread_count(user),
            last: self.last(user),
            high: self.high(user),
        }
    }
}
