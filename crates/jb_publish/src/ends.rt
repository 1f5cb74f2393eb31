//! The writer's end, a reader's end, and a look. Their fields are the crate's own.
ghost use Rattle.std.specs.Prelude.{◌≡◌, ◌≤◌, true, fold, is_some, vec_capacity};
ghost use Rattle.left_right.specs.Sides.{view};
ghost use Rattle.jb_publish.specs.Books.{length_word};
ghost use Rattle.jb_publish.specs.Marks.{book_at};
ghost use Rattle.jb_publish.specs.declared.ends.TheConstants.{ROOM};

use crate::edition::Edition;
use crate::front::Front;
use crate::known::Known;
use crate::list::ListWord;
use crate::meaning::{Absorbs, Published};
use crate::rule::EditionLaw;
use left_right::Absorb;
use left_right::reader::{Reader, Reading};
use left_right::writer::Writer;

pub(crate) type EditionReader<T, O, E> = Reader<Edition<T, E>, Known<O>, EditionLaw>;

pub(crate) type EditionReading<T, O, E> = Reading<Edition<T, E>, Known<O>, EditionLaw>;

pub(crate) type EditionWriter<T, O, E> = Writer<Edition<T, E>, (), Known<O>, EditionLaw>;

/// So many changes can be queued between two showings without memory.
pub const ROOM: usize = 3;

/// The writer's end. It is not `Drop`: end it by `close`.
pub struct Shower<T: Published<O, E> + Absorbs<K> + Drop, K: Drop, O, E>
where
    Edition<T, E>: Absorb<()>,
{
    pub(crate) writer: EditionWriter<T, O, E>,
    /// The changes that the spare copy lacks of the one that is shown.
    pub(crate) lacking: Vec<K>,
    /// The changes that neither copy has.
    pub(crate) queued: Vec<K>,
    pub(crate) word: ListWord<E>,
    /// All that was published.
    pub(crate) front: Front<E>,
    ghost bound: { is_some (view writer.desk.place).mark ≡ true },
    ghost tied: { front.seen.book ≡ book_at (view writer.desk.place).mark },
    ghost named: { word ≡ length_word front.seen.book },
    ghost begun: { (writer.desk.shown.value.begun ≡ true) × (writer.desk.spare.value.begun ≡ true) },
    ghost current: { writer.desk.shown.value.front.count ≡ front.count },
    ghost lacks: { fold T.changed writer.desk.spare.value.value lacking.items ≡ writer.desk.shown.value.value },
    ghost room: { (ROOM ≤ vec_capacity lacking) × (ROOM ≤ vec_capacity queued) },
}

/// A reader's end, for one thread at a time. It may be sent to a thread and dropped.
#[derive(Drop)]
pub struct Shown<T: Published<O, E> + Drop, O, E> {
    pub(crate) reader: EditionReader<T, O, E>,
    /// What its looks have shown.
    pub(crate) shown: Front<E>,
    /// What it was told.
    pub(crate) told: Front<E>,
    /// How often it was not let in.
    pub(crate) barred: u64,
    ghost bound: { is_some (view reader.place).mark ≡ true },
    ghost shown_tied: { shown.seen.book ≡ book_at (view reader.place).mark },
    ghost told_tied: { told.seen.book ≡ book_at (view reader.place).mark },
}

/// A reader's end in the middle of a look, with the value that the look shows. The writer may wait for it. It is not `Drop`:
/// end it by `leave`.
pub struct Sight<T: Published<O, E> + Drop, O, E> {
    pub(crate) reading: EditionReading<T, O, E>,
    pub(crate) shown: Front<E>,
    pub(crate) told: Front<E>,
    pub(crate) barred: u64,
    ghost bound: { is_some (view reading.place).mark ≡ true },
    ghost shown_tied: { shown.seen.book ≡ book_at (view reading.place).mark },
    ghost told_tied: { told.seen.book ≡ book_at (view reading.place).mark },
}
