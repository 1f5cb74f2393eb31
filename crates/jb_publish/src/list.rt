//! The book whose log is the published list. The one of its words that counts is the length of the list.
ghost use Rattle.std.specs.Prelude.{◌≡◌, ◌≤◌, ◌<◌, length};
ghost use mathlib.Core.List.{IsPrefix};
ghost use Rattle.jb_publish.specs.Books.{length_word};

use crate::meaning::{NamesList, Published};
use crossbeam_utils::Backoff;
use logbook::{Gain, Offer, Plain, Play, Rule, Seen, Word};
use std::marker::PhantomData;
use std::sync::Wait;

pub(crate) type ListSeen<E> = Seen<E, u64, ListLaw>;

pub(crate) type ListWord<E> = Word<E, u64, ListLaw>;

/// The rule of the book.
pub(crate) struct ListLaw;

impl<E> Rule<E, u64> for ListLaw {
    ghost use Rattle.std.specs.Prelude.{[]};
    ghost use base.Fml.{ftrue};
    ghost use Rattle.jb_publish.specs.Books.{TellsLength};

    ghost holds = { λ cells log. TellsLength cells log };

    ghost first = { [] };

    ghost hinted = { λ n log. Unit {0} };

    ghost shows = { λ log. [] };

    ghost keeps = { λ names log. ftrue };

    ghost moves = { λ ask before after answer. Unit {0} };
}

/// Callers trade nothing with the book.
pub(crate) struct Nothing;

impl<E> Gain<E, u64> for Nothing {
    ghost use base.Fml.{ftrue};

    ghost after = { λ names about answer. ftrue };
}

pub(crate) struct Asks<T, O> {
    value: PhantomData<(T, O)>,
}

impl<T: Published<O, E>, O, E> Plain<(), E, u64> for Asks<T, O> {
    ghost use Rattle.std.specs.Prelude.{None};

    ghost ask = { λ x. T.sample };

    ghost state = { λ x. None };
}

/// A step that goes on to the list that `J` names.
pub(crate) struct Grow<J> {
    list: PhantomData<J>,
}

impl<E, J: NamesList<E>> Play<E, u64> for Grow<J> {
    ghost use Rattle.jb_publish.specs.Books.{Grows};

    ghost then = { Grows J.items };
}

/// Goes on to the list that `J` names. It waits where the word is not the length that is known, which only another
/// writer could bring about.
pub(crate) fn go_on<T: Published<O, E>, O, E, J: NamesList<E>, R: Wait>(
    rt: &R,
    word: &ListWord<E>,
    seen: &ListSeen<E>,
    old: u64,
    new: u64,
) -> ListSeen<E>
    requires word { word.now ≡ length_word seen.now.book }
    requires old { old ≡ length seen.now.log }
    requires list { IsPrefix seen.now.log J.items × (new ≡ length J.items) }
    ensures { (result.book ≡ seen.now.book) × (result.log ≡ J.items) }
{
    let backoff = Backoff::new();
    for _ in rt.forever() {
        let mut next = seen.again();
        let mut offer: Offer<E, u64, ListLaw, Nothing> = next.plain::<Nothing, (), Asks<T, O>>(&());
        let mut pen = next.no_pen();
        let found = word.compare_exchange::<Grow<J>, Nothing>(
            old, new, &mut next, &mut offer, &mut pen,
        );
        if found == old {
            return next;
        }
        backoff.snooze();
    }
    unreachable!()
}

/// A look at the word tells how long the list is.
pub(crate) struct Count;

impl<E> Play<E, u64> for Count {
    ghost use Rattle.jb_publish.specs.Books.{TellsCount};

    ghost then = { TellsCount };
}

/// Shows that what was seen is the whole list, so that each other beginning of it begins this. It waits where the word is not the
/// length that is known, which only another writer could bring about.
pub(crate) fn is_whole<T: Published<O, E>, O, E, R: Wait>(
    rt: &R,
    word: &ListWord<E>,
    seen: &ListSeen<E>,
    count: u64,
    other: &ListSeen<E>,
)
    requires word { word.now ≡ length_word seen.now.book }
    requires count { count ≡ length seen.now.log }
    requires book { other.now.book ≡ seen.now.book }
    ensures { IsPrefix other.now.log seen.now.log }
{
    let backoff = Backoff::new();
    for _ in rt.forever() {
        let mut both = seen.again();
        both.learn(other);
        let mut offer: Offer<E, u64, ListLaw, Nothing> = both.plain::<Nothing, (), Asks<T, O>>(&());
        let found = word.load::<Count, Nothing>(&mut both, &mut offer);
        if found == count {
            return;
        }
        backoff.snooze();
    }
    unreachable!()
}
