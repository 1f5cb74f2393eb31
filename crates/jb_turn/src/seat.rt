//! The turn, its seats, and the state that is out. Their fields are the crate's own.
ghost use Rattle.std.specs.Prelude.{◌≡◌, ◌<◌, ◌≤◌, [], ◌∷◌};
ghost use Rattle.jb_turn.specs.Rows.{head_row, first_view};
ghost use Rattle.jb_turn.specs.declared.view.TicketStage.TheVariants.{Idle};

use crate::kept::Kept;
use crate::rule::{Key, Ruled};
use crate::view::View;
use atomic_table::{Badge, Table};
use std::alloc::Global;

pub(crate) type Place<S, O, E, Q> = atomic_table::Seat<Option<S>, View<O, E, Q>>;

/// The state that was taken out, and the number of entries of its history.
pub struct Held<S> {
    pub state: S,
    pub count: u64,
}

/// A queue of tickets with the state behind it.
#[derive(Drop)]
pub struct Turn<S: Kept<O, E>, O, E, Q> {
    pub(crate) table: Table<Option<S>, View<O, E, Q>, Key<S>, Ruled, Global>,
    pub(crate) seats: u32,
    ghost three_words: { table.shared.table_id.words ≡ 3 },
    ghost one_slot: { table.shared.table_id.slots ≡ 1 },
    ghost keyed: { table.shared.key.seats ≡ seats },
    ghost some_seat: { 0 < seats },
    ghost few_seats: { seats ≤ 33 },
}

/// A seat of a turn, for one thread at a time. It has no bytes but its node's number.
pub struct Seat<S, O, E, Q> {
    pub(crate) place: Place<S, O, E, Q>,
    pub(crate) node: u32,
    ghost one_row: { place.me.0.rows ≡ head_row place.me.0.rows ∷ [] },
    ghost same_node: { (head_row place.me.0.rows).node ≡ node },
}

// By hand, so that it asks nothing of S.
impl<S, O, E, Q> Drop for Seat<S, O, E, Q> {
    fn drop(self) {
        let Self {
            place: _place,
            node: _,
        } = self;
    }
}

impl<S, O, E, Q> Seat<S, O, E, Q> {
    pub(crate) fn into_place(self) -> Place<S, O, E, Q>
        ensures { result ≡ self.place }
    {
        let Self { place, node: _ } = self;
        place
    }
}

/// A seat that rests, in a type that does not name the state. It can be dropped and sent to a thread whatever the state
/// is, so a struct that lives longer than one turn keeps its seat in this form.
#[derive(Drop)]
pub struct RestingSeat<O, E, Q> {
    pub(crate) badge: Badge<View<O, E, Q>>,
    pub(crate) node: u32,
    ghost one_view: { badge.views ≡ first_view badge.views ∷ [] },
    ghost idle: { (first_view badge.views).stage ≡ Idle },
    ghost one_row: { (first_view badge.views).rows ≡ head_row (first_view badge.views).rows ∷ [] },
    ghost same_node: { (head_row (first_view badge.views).rows).node ≡ node },
}

impl<O, E, Q> RestingSeat<O, E, Q> {
    pub(crate) fn into_badge(self) -> Badge<View<O, E, Q>>
        ensures { result ≡ self.badge }
    {
        let Self { badge, node: _ } = self;
        badge
    }
}
