//! Seats that add to a number behind a turn, in threads.
ghost use Rattle.std.specs.Prelude.{All, IfSome};
ghost use Rattle.jb_turn.specs.Seats.{Rests};

use crate::adding::{Adder, Adders, Total, add_often};
use std::sync::Wait;
use std::thread;
use std::thread::Threads;
use trial_rows::{Row, Words};

/// The seats of a turn, at most.
const MOST_SEATS: u32 = 33;

// Each seat adds so often, in a thread of its own.
fn add_all<R: Threads + Wait + Sync>(rt: &R, turn: &Adders, seats: &mut [Adder], times: u32)
    requires { All (Rests turn.now) seats.old }
    ensures { All (Rests turn.now) seats.new }
{
    thread::for_each_mut(
        rt,
        seats,
        MOST_SEATS as usize,
        &|_place: usize, seat: &mut Adder|
            requires { Rests turn.now seat.now }
            ensures { Rests turn.entry.now seat.exit.now }
        {
            add_often(rt, turn, seat, times);
        },
    );
}

// The last of the seats, which all rest.
fn last_of(_turn: &Adders, seats: &mut Vec<Adder>) -> Option<Adder>
    requires { All (Rests _turn.now) seats.old.items }
    ensures rest { All (Rests _turn.now) seats.new.items }
    ensures last { IfSome result (Rests _turn.now) }
{
    seats.pop()
}

// Closes a turn without this seat, and then with it.
fn put_closed(turn: Adders, seats: Vec<Adder>, missing: Adder, words: &mut Words)
    requires seats { All (Rests turn) seats.items }
    requires missing { Rests turn missing }
{
    let Err((turn, mut seats, number)) = turn.close(seats) else {
        return words.word("closed without a seat");
    };
    words.named("missing", u64::from(number));
    words.put(", then");
    let Ok(()) = seats.push(missing) else {
        return words.lack();
    };
    match turn.close(seats) {
        Ok(total) => words.named("sum", total.sum),
        Err((_turn, _seats, number)) => words.named("missing", u64::from(number)),
    }
}

/// `seats OPENING COUNT TIMES`: 1 to 33 seats add 1 so often to a number, in threads; the last rests and wakes, and the turn is closed
/// without it and then with it: the number of the seat that is missing, and the sum.
pub fn put_seats<R: Threads + Wait + Sync>(rt: &R, row: &Row, words: &mut Words) {
    let opening = row.number(1, words);
    let (count, times) = (row.u32(2, words), row.u32(3, words));
    if count == 0 || count > MOST_SEATS {
        return words.unknown(2);
    }
    let Ok((turn, mut seats)) = Adders::new(words.alloc, Total { sum: opening }, count) else {
        return words.lack();
    };
    add_all(rt, &turn, seats.as_mut_slice(), times);
    let Some(last) = last_of(&turn, &mut seats) else {
        return words.lack();
    };
    let resting = last.rest();
    words.number(u64::from(resting.node()));
    words.word("rests,");
    put_closed(turn, seats, resting.wake(), words);
}
