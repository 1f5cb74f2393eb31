//! The rule of the turn's table, and what each step on it tells. Nothing above this crate sees the table.
ghost use Rattle.std.specs.Prelude.{ℕ, List, Option, None};

use crate::kept::{Kept, NamesEntry, NamesRemark};
use crate::view::View;
use atomic_table::{Join, Play, Split, TableRule};
use std::marker::PhantomData;
use std::snapshot::Snapshot;

/// What is fixed when a turn is made.
pub(crate) struct Key<S> {
    pub(crate) seats: u64,
    pub(crate) first: Snapshot<S>,
}

impl<S> Drop for Key<S> {
    fn drop(self) {
        let Self { seats: _, first: _ } = self;
    }
}

pub(crate) struct Ruled;

impl<S: Kept<O, E>, O, E, Q> TableRule<Option<S>, View<O, E, Q>, Key<S>> for Ruled {
    ghost use Rattle.jb_turn.specs.Rule.{TurnRule};
    ghost use Rattle.jb_turn.specs.Steps.{maker};

    ghost holds = { λ key. TurnRule S.stands S.caller (S.opening key.first.value) key.seats };

    ghost first = { λ key. maker (S.opening key.first.value) };
}

/// The next ticket is drawn.
pub(crate) struct Draw;

impl<S, O, E, Q> Play<Option<S>, View<O, E, Q>> for Draw {
    ghost use Rattle.jb_turn.specs.Steps.{Draws};

    ghost then = { Draws };
}

/// A look at the ticket that is served.
pub(crate) struct Come;

impl<S: Kept<O, E>, O, E, Q> Play<Option<S>, View<O, E, Q>> for Come {
    ghost use Rattle.jb_turn.specs.Steps.{Comes};

    ghost then = { Comes S.stands S.caller };
}

/// A look at the count while the state is out with the seat.
pub(crate) struct Count;

impl<S, O, E, Q> Play<Option<S>, View<O, E, Q>> for Count {
    ghost use Rattle.jb_turn.specs.Steps.{Counts};

    ghost then = { Counts };
}

/// One entry more.
pub(crate) struct Note<J> {
    entry: PhantomData<J>,
}

impl<S: Kept<O, E>, O, E, Q, J: NamesEntry<E>> Play<Option<S>, View<O, E, Q>> for Note<J> {
    ghost use Rattle.jb_turn.specs.Steps.{Notes};

    ghost then = { Notes S.caller J.entry };
}

/// The next ticket is served.
pub(crate) struct Give<J> {
    remark: PhantomData<J>,
}

impl<S, O, E, Q, J: NamesRemark<Q>> Play<Option<S>, View<O, E, Q>> for Give<J> {
    ghost use Rattle.jb_turn.specs.Steps.{Gives};

    ghost then = { Gives J.remark };
}

/// One seat more.
pub(crate) struct Cut;

impl<O, E, Q> Split<View<O, E, Q>> for Cut {
    ghost use Rattle.jb_turn.specs.Steps.{maker_no_more, newcomer};

    ghost left = { maker_no_more };

    ghost right = { newcomer };
}

/// One seat takes in another.
pub(crate) struct Glue;

impl<O, E, Q> Join<View<O, E, Q>> for Glue {
    ghost use Rattle.jb_turn.specs.Steps.{both, spent};

    ghost both = { both };

    ghost spent = { spent };
}
