//! Both ends are made.
ghost use Rattle.std.specs.Prelude.{◌≡◌, ◌<◌, ◌≤◌, ℕ, true, false, [], length, slice_get, IfOk, Some};
ghost use Rattle.left_right.specs.Sides.{view};
ghost use Rattle.jb_publish.specs.Accounts.{IsFresh, account_of, arrived};
ghost use Rattle.jb_publish.specs.Editions.{edition};
ghost use Rattle.jb_publish.specs.Marks.{ValueStandsFrom, blank, opening_at};
ghost use Rattle.jb_publish.specs.Publications.{publication_of};
ghost use Rattle.jb_publish.specs.Shows.{Binds};

use crate::edition::Edition;
use crate::ends::{EditionReader, EditionWriter, ROOM, Shower, Shown};
use crate::front::Front;
use crate::list::{ListSeen, ListWord};
use crate::meaning::{Absorbs, NamesOpening, Published};
use crate::rule::{Bind, Notes};
use logbook::{Seen, Start, Word};
use std::alloc::{AllocError, Global};
use std::sync::Wait;

// The writer takes the mark of the book and of the opening that `J` names. There are no readers yet, so it waits for nobody.
fn bind<T: Published<O, E> + Drop, O, E, J: NamesOpening<O>, R: Wait>(
    rt: &R,
    mut writer: EditionWriter<T, O, E>,
    front: &Front<E>,
) -> EditionWriter<T, O, E>
    requires fresh { writer.desk.shown.value.begun ≡ false }
    requires stands { ValueStandsFrom T.stands J.opening writer.desk.shown.value.value front.now.seen.log }
    ensures shown { result.desk.shown.value ≡ edition writer.desk.shown.value.value front.now true }
    ensures spare { (result.desk.spare.value.value ≡ writer.desk.shown.value.value)
        × (result.desk.spare.value.begun ≡ true) }
    ensures binds { Binds J.opening
        (view writer.desk.place) writer.desk.shown.value result.desk.shown.value
        (view result.desk.place) }
{
    let (open, mut spare) = writer.desk.open(rt);
    spare.settle(front);
    let (open, mut spare) = open.show_as::<Bind<J>>(spare).open(rt);
    spare.settle(front);
    writer.desk = open.shelve(spare);
    writer
}

impl<T: Published<O, E> + Absorbs<K> + Drop, K: Drop, O, E> Shower<T, K, O, E> {
    // A reader's end for a new reader, which knows what the writer knows.
    fn admit(&mut self, mut reader: EditionReader<T, O, E>) -> Shown<T, O, E>
        requires table { reader.place.table_id ≡ self.old.writer.desk.place.table_id }
        requires new { view reader.place ≡ blank }
        ensures same { publication_of self.new ≡ publication_of self.old }
        ensures reader { account_of result
            ≡ arrived (publication_of self.old).mark (publication_of self.old).list }
    {
        reader.learn::<Notes>(self.writer.desk.tell::<Notes>());
        Shown {
            reader,
            shown: self.front.again(),
            told: self.front.again(),
            barred: 0,
        }
    }
}

/// Both ends over two copies of a value that stands for the empty list from the opening that `J` names, with so many
/// readers, from 1 to 33. It waits for nobody while no reader looks.
///
/// It takes the room for `ROOM` changes between two showings, so that `put` and `show` take no memory.
///
/// `Err` is for want of memory alone; both copies are then dropped, so a caller that wants the value back keeps a third.
pub fn pair<T: Published<O, E> + Absorbs<K> + Drop, K: Drop, O, E, J: NamesOpening<O>, R: Wait>(
    rt: &R,
    alloc: Global,
    first: T,
    second: T,
    readers: u32,
) -> Result<(Shower<T, K, O, E>, Vec<Shown<T, O, E>>), AllocError>
    requires readers { (0 < readers) × (readers ≤ 33) }
    requires alike { first ≡ second }
    requires stands { ValueStandsFrom T.stands J.opening first [] }

    // Nothing is published or queued, and looks show the value.
    ensures list { IfOk result (λ r. (publication_of r.0).list ≡ []) }
    ensures queued { IfOk result (λ r. (publication_of r.0).queued ≡ []) }
    ensures value { IfOk result (λ r. (publication_of r.0).value ≡ first) }
    ensures opening { IfOk result (λ r. opening_at (publication_of r.0).mark ≡ J.opening) }

    // So many readers of this pair were shown nothing and told nothing.
    ensures count { IfOk result (λ r. length r.1.items ≡ readers) }
    ensures fresh { IfOk result (λ r. (k : ℕ) (s : _) → slice_get r.1.items k ≡ Some s
        → IsFresh (publication_of r.0).mark s) }
{
    let mut ends = Vec::with_capacity(alloc, readers as usize)?;
    let lacking = Vec::with_capacity(alloc, ROOM)?;
    let queued = Vec::with_capacity(alloc, ROOM)?;
    let (seen, mut pen, _second_pen): (ListSeen<E>, _, _) = Seen::open(Start::alone(), 0, 0);
    let word = Word::tracked(0, &mut pen);
    let front = Front { count: 0, seen };
    let first = Edition {
        value: first,
        front: front.again(),
        begun: false,
    };
    let second = Edition {
        value: second,
        front: front.again(),
        begun: false,
    };
    let writer = EditionWriter::<T, O, E>::new(alloc, first, second, readers as usize)?;
    let mut shower = Shower {
        writer: bind::<T, O, E, J, R>(rt, writer, &front),
        lacking,
        queued,
        word,
        front,
    };
    while ends.len() < readers as usize {
        let Ok(reader) = shower.writer.factory().reader() else {
            shower.close(rt);
            return Err(AllocError);
        };
        ends.push_reserved(shower.admit(reader));
    }
    Ok((shower, ends))
}
