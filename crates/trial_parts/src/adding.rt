//! A number behind a turn, and seats that add to it.
ghost use Rattle.std.specs.Prelude.{◌≡◌, ◌+◌, ◌^◌, ◌<◌, ◌≤◌, [], ◌∷◌, ◌++◌, Some};
ghost use Rattle.jb_turn.specs.Rows.{StandsFrom};
ghost use Rattle.jb_turn.specs.Seats.{node, opening, front, Rests, HoldsTurn};
ghost use Rattle.trial_parts.specs.Totals.{stands_for_total};

use jb_turn::{Held, Kept, NamesEntry, Seat, Turn};
use std::marker::Brand;
use std::sync::Wait;

/// The number.
#[derive(Drop)]
pub struct Total {
    pub sum: u64,
}

// The number is the sum of what was added. An entry is a node and what it added.
impl Kept<u64, (u32, u64)> for Total {
    ghost use Rattle.std.specs.Prelude.{Some};
    ghost use Rattle.trial_parts.specs.Sums.{sums_up};

    ghost stands = { λ total first log. sums_up total.sum first log };

    ghost opening = { λ total. total.sum };

    ghost caller = { λ e. Some e.0 };
}

pub type Adders = Turn<Total, u64, (u32, u64), ()>;

pub type Adder = Seat<Total, u64, (u32, u64), ()>;

// Notes that the seat's node added the amount. A call picks J by these arguments.
fn note_added<J: NamesEntry<(u32, u64)>>(
    turn: &Adders,
    seat: &mut Adder,
    held: &mut Held<Total>,
    amount: u64,
)
    requires entry { J.entry ≡ Some (node seat.old, amount) }
    requires seat { HoldsTurn turn.now seat.old held.old.count × (held.old.count ≤ 2 ^ 62) }
    ensures seat { HoldsTurn turn.now seat.new held.new.count }
    ensures entry { front seat.new ≡ front seat.old ++ (node seat.old, amount) ∷ [] }
    ensures same { opening seat.new ≡ opening seat.old }
    ensures kept { held.new.state ≡ held.old.state }
{
    turn.note::<J>(seat, held);
}

// Adds 1 to the number that is out, where there is room for it.
fn add_one(turn: &Adders, seat: &mut Adder, held: &mut Held<Total>)
    requires seat { HoldsTurn turn.now seat.old held.old.count }
    requires state { StandsFrom stands_for_total (opening seat.old) held.old.state (front seat.old) }
    ensures seat { HoldsTurn turn.now seat.new held.new.count }
    ensures state { StandsFrom stands_for_total (opening seat.new) held.new.state (front seat.new) }
{
    if held.count <= 1 << 62 && held.state.sum < u64::MAX {
        held.state.sum += 1;
        note_added::<Brand>(turn, seat, held, 1);
    }
}

fn add<R: Wait>(rt: &R, turn: &Adders, seat: &mut Adder)
    requires { Rests turn.now seat.old }
    ensures { Rests turn.now seat.new }
{
    let mut held = turn.take(rt, seat);
    add_one(turn, seat, &mut held);
    turn.give::<Brand>(seat, held);
}

/// Adds 1 so often, each in a turn of its own.
pub fn add_often<R: Wait>(rt: &R, turn: &Adders, seat: &mut Adder, times: u32)
    requires { Rests turn.now seat.old }
    ensures { Rests turn.now seat.new }
{
    for _ in 0..times {
        add(rt, turn, seat);
    }
}
