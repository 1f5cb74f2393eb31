//! What the writer does.
ghost use Rattle.std.specs.Prelude.{◌≡◌, ◌≤◌, ◌<◌, true, fold, length, MatchResult, OnErr};
ghost use mathlib.Core.List.{IsPrefix};
ghost use Rattle.jb_publish.specs.Editions.{edition};
ghost use Rattle.jb_publish.specs.Fronts.{known_list};
ghost use Rattle.jb_publish.specs.Marks.{ValueStandsFrom, opening_at};
ghost use Rattle.jb_publish.specs.Pairs.{IsIn};
ghost use Rattle.jb_publish.specs.Publications.{publication_of, queued_with, shown_with};
ghost use Rattle.jb_publish.specs.declared.ends.TheConstants.{ROOM};

use crate::edition::Edition;
use crate::ends::Shower;
use crate::front::Front;
use crate::list::{go_on, is_whole};
use crate::meaning::{Absorbs, NamesList, Published};
use crate::rule::Publish;
use std::sync::Wait;

// The value takes in these changes.
fn absorb_all<T: Absorbs<K>, K>(value: &mut T, changes: &[K])
    ensures { value.new ≡ fold T.changed value.old changes.now }
{
    for change in changes {
        value.absorb(change);
    }
}

// The copy takes in what it lacks and what is queued, and stands for the list of this front.
fn bring_up<T: Absorbs<K>, K, E>(
    copy: &mut Edition<T, E>,
    lacking: &[K],
    queued: &[K],
    front: &Front<E>,
)
    ensures { copy.new ≡ edition (fold T.changed
        (fold T.changed copy.old.value lacking.now) queued.now) front.now true }
{
    absorb_all(&mut copy.value, lacking);
    absorb_all(&mut copy.value, queued);
    copy.settle(front);
}

impl<T: Published<O, E> + Absorbs<K> + Drop, K: Drop, O, E> Shower<T, K, O, E> {
    /// Queues a change, which no look sees before it is shown. It comes back where there is no memory, and so never while fewer than
    /// `ROOM` are queued.
    pub fn queue(&mut self, change: K) -> Result<(), K>
        ensures queued { MatchResult result (λ _.
            publication_of self.new ≡ queued_with (publication_of self.old) change) (λ back.
            (back ≡ change) × (publication_of self.new ≡ publication_of self.old)) }
        ensures room { OnErr result (ROOM ≤ length (publication_of self.old).queued) }
    {
        match self.queued.push(change) {
            Ok(()) => Ok(()),
            Err(failed) => Err(failed.value),
        }
    }

    /// Queues a change for which there is room. It takes no memory.
    pub fn put(&mut self, change: K)
        requires room { length (publication_of self.old).queued < ROOM }
        ensures { publication_of self.new ≡ queued_with (publication_of self.old) change }
    {
        self.queued.push_reserved(change);
    }

    /// Shows all changes that are queued, as the list with so many entries that `J` names. It takes no memory, and waits for the looks
    /// that still see the copy from before the last showing.
    pub fn show<J: NamesList<E>, R: Wait>(self, rt: &R, count: u64) -> Shower<T, K, O, E>
        requires longer { IsPrefix (publication_of self).list J.items × (count ≡ length J.items) }
        requires stands { ValueStandsFrom T.stands (opening_at (publication_of self).mark)
            (fold T.changed (publication_of self).value (publication_of self).queued) J.items }
        ensures { publication_of result ≡ shown_with T.changed (publication_of self) J.items }
    {
        let Shower {
            mut writer,
            mut lacking,
            queued,
            word,
            front,
        } = self;
        let seen = go_on::<T, O, E, J, R>(rt, &word, &front.seen, front.count, count);
        let front = Front { count, seen };
        let (open, mut spare) = writer.desk.open(rt);
        bring_up(&mut *spare, lacking.as_slice(), queued.as_slice(), &front);
        writer.desk = open.show_as::<Publish>(spare);
        lacking.clear();
        Shower {
            writer,
            lacking: queued,
            queued: lacking,
            word,
            front,
        }
    }

    /// All that was published, for a reader to learn.
    pub fn tell(&self) -> Front<E>
        ensures list { known_list result ≡ (publication_of self.now).list }
        ensures pair { IsIn (publication_of self.now).mark result }
    {
        self.front.again()
    }

    /// Shows that this list, which an end of this pair was shown or told, begins what was published. It waits where another writer has
    /// gone on with the list, and there is none.
    pub fn leads<R: Wait>(&self, rt: &R, front: &Front<E>)
        requires pair { IsIn (publication_of self.now).mark front.now }
        ensures { IsPrefix (known_list front.now) (publication_of self.now).list }
    {
        is_whole::<T, O, E, R>(
            rt,
            &self.word,
            &self.front.seen,
            self.front.count,
            &front.seen,
        );
    }

    /// Ends the copies, and gives the value that was shown last. It waits for the looks that still see one. Changes that are
    /// queued are dropped, and the readers are let in no more.
    pub fn close<R: Wait>(self, rt: &R) -> T
        ensures { result ≡ (publication_of self).value }
    {
        let Shower {
            writer,
            lacking: _lacking,
            queued: _queued,
            word: _word,
            front: _front,
        } = self;
        let Edition {
            value,
            front: _front,
            begun: _,
        } = Box::into_inner(writer.take(rt));
        value
    }
}
