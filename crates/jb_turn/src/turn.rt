//! The calls of a turn: seats are made with it, take the state in turn, note entries, give it back, and end it together.
ghost use Rattle.std.specs.Prelude.{◌≡◌, ℕ, ◌+◌, ◌^◌, ◌<◌, ◌≤◌, List, [], ◌∷◌, ◌++◌, map, length, slice_get, Some, None, All, IfOk, IfErr, OnOk, MatchOption, IsTrue, ◌↔◌};
ghost use Rattle.jb_turn.specs.Rows.{Begins, IsOwn, StandsFrom, calls};
ghost use Rattle.jb_turn.specs.Steps.{sighted, noted, given};
ghost use Rattle.jb_turn.specs.Seats.{node, opening, front, mine, row_of, turn_of, id_of, seats_of, resting_row, resting_turn, HasNoTicket, Rests, HoldsTurn, AreNewSeats};
ghost use Rattle.jb_turn.specs.Whole.{HasRows, HasRow, IsLowestRowMissing, IsWhole};

use crate::kept::{Kept, NamesEntry, NamesRemark};
use crate::rule::{Come, Count, Cut, Draw, Give, Glue, Key, Note};
use crate::seat::{Held, RestingSeat, Seat, Turn};
use crate::seated::Seated;
use atomic_table::{Refused, Table};
use crossbeam_utils::Backoff;
use std::alloc::Global;
use std::snapshot::Snapshot;
use std::sync::Wait;
use std::time::Duration;

// The words of the table.
const TICKET: usize = 0;

const SERVING: usize = 1;

const COUNT: usize = 2;

/// A thread that waits looks again after this, if nothing wakes it before.
const LONGEST_SLEEP_SECONDS: u64 = 1;

impl<O, E, Q> RestingSeat<O, E, Q> {
    /// The seat itself, for a turn over `S`.
    pub fn wake<S>(self) -> Seat<S, O, E, Q>
        ensures same { (turn_of result ≡ resting_turn self) × (row_of result ≡ resting_row self) }
        ensures rests { HasNoTicket result }
    {
        let node = self.node;
        let place = self.into_badge().into_seat::<Option<S>>();
        Seat { place, node }
    }

    /// The number of the seat's node, from 1.
    pub fn node(&self) -> u32
        ensures { result ≡ (resting_row self.now).node }
    {
        self.node
    }
}

impl<S, O, E, Q> Seat<S, O, E, Q> {
    /// Puts the seat into the form that does not name the state.
    pub fn rest(self) -> RestingSeat<O, E, Q>
        requires { HasNoTicket self }
        ensures same { (resting_turn result ≡ turn_of self) × (resting_row result ≡ row_of self) }
    {
        let node = self.node;
        let badge = self.into_place().into_badge();
        RestingSeat { badge, node }
    }

    /// The number of the seat's node, from 1.
    pub fn node(&self) -> u32
        ensures { result ≡ node self.now }
    {
        self.node
    }
}

fn has_node<S, O, E, Q, P: Seated<S, O, E, Q>>(seats: &[P], number: u32) -> bool
    ensures { IsTrue result ↔ HasRow (map P.knows seats.now) number }
{
    for seat in seats {
        if seat.number() == number {
            return true;
        }
    }
    false
}

fn first_missing<S, O, E, Q, P: Seated<S, O, E, Q>>(seats: &[P], count: u32) -> Option<u32>
    requires { count ≤ 33 }
    ensures { MatchOption result (HasRows (map P.knows seats.now) count)
        (IsLowestRowMissing (map P.knows seats.now) count) }
{
    for number in 1..count + 1 {
        if !has_node::<S, O, E, Q, P>(seats, number) {
            return Some(number);
        }
    }
    None
}

/// Whether a turn was given since a thread went to sleep, if it did.
fn was_moved(slept_at: Option<u64>, serving: u64) -> bool {
    match slept_at {
        Some(was) => was != serving,
        None => false,
    }
}

impl<S: Kept<O, E>, O, E, Q> Turn<S, O, E, Q> {
    /// A turn over the state, with so many seats, from 1 to 33. Its history is empty.
    ///
    /// `Err` hands the state back, for want of memory alone.
    pub fn new(
        alloc: Global,
        state: S,
        seats: u32,
    ) -> Result<(Turn<S, O, E, Q>, Vec<Seat<S, O, E, Q>>), S>
        requires seats { (0 < seats) × (seats ≤ 33) }
        requires stands { S.stands state (S.opening state) [] }

        // So many seats were made. The one at place k has node k + 1, rests, and knows the opening alone.
        ensures count { IfOk result (λ r. (seats_of r.0 ≡ seats) × (length r.1.items ≡ seats)) }
        ensures rests { IfOk result (λ r. All (Rests r.0) r.1.items) }
        ensures fresh { IfOk result (λ r. AreNewSeats (S.opening state) r.1.items) }

        // Without memory nothing was made.
        ensures err { IfErr result (λ s. s ≡ state) }
    {
        let Ok(mut all) = Vec::with_capacity(alloc, seats as usize) else {
            return Err(state);
        };
        let Ok(mut slots) = Vec::with_capacity(alloc, 1) else {
            return Err(state);
        };
        let about = Key {
            seats: seats as u64,
            first: Snapshot::of(&state),
        };
        slots.push_reserved(Some(state));
        match Table::new(alloc, &[0, 0, 0], slots, &about) {
            Ok((table, mut place)) => {
                for node in 1..seats {
                    let next = table.shared.split_seat::<Cut>(&mut place);
                    all.push_reserved(Seat { place, node });
                    place = next;
                }
                all.push_reserved(Seat { place, node: seats });
                Ok((Turn { table, seats }, all))
            }
            Err(Refused { mut slots }) => {
                let Some(Some(state)) = slots.pop() else {
                    unreachable!()
                };
                slots.destroy_empty();
                Err(state)
            }
        }
    }

    /// Draws a ticket, waits until its turn has come, and takes the state. It is never refused.
    ///
    /// A waiting thread looks at one word a few times, with growing pauses, and then sleeps until a turn is given. Who gives one
    /// wakes one sleeper, as the system has queued them, which is nearly always the next; one whose turn has not come wakes the
    /// one behind it and sleeps again. It also looks once a second, whatever is woken.
    pub fn take<R: Wait>(&self, rt: &R, seat: &mut Seat<S, O, E, Q>) -> Held<S>
        requires seat { Rests self.now seat.old }

        // The state is out with this seat, and stands for all that the seat has now seen.
        ensures holds { HoldsTurn self.now seat.new result.count }
        ensures state { StandsFrom S.stands (opening seat.new) result.state (front seat.new) }

        // The seat saw more of the history, and of its own calls there are those that it knew.
        ensures grows { Begins (front seat.old) (front seat.new) }
        ensures same { row_of seat.new ≡ sighted (row_of seat.old) (front seat.new) }
        ensures own { calls S.caller (node seat.new) (front seat.new) ≡ mine seat.new }
    {
        let shared = &self.table.shared;
        let ticket = shared.fetch_add::<Draw>(&mut seat.place, TICKET, 1);
        let backoff = Backoff::new();
        let mut slept_at = None;
        for _ in rt.forever() {
            let serving = shared.load::<Come>(&mut seat.place, SERVING);
            if serving == ticket {
                let state = shared.exchange(&mut seat.place, 0, None).unwrap();
                let count = shared.load::<Count>(&mut seat.place, COUNT);
                return Held { state, count };
            }
            if !backoff.is_completed() {
                backoff.snooze();
                continue;
            }
            if was_moved(slept_at, serving) {
                shared.wake_one(SERVING);
            }
            shared.park_timeout(
                rt,
                SERVING,
                (serving % 4_294_967_296) as u32,
                Duration::from_secs(LONGEST_SLEEP_SECONDS),
            );
            slept_at = Some(serving);
        }
        unreachable!()
    }

    /// Adds the entry that `J` names to the history, and raises the count by one: one atomic addition.
    ///
    /// Until the state stands for the history with this entry, it cannot be given back.
    pub fn note<J: NamesEntry<E>>(&self, seat: &mut Seat<S, O, E, Q>, held: &mut Held<S>)
        requires seat { HoldsTurn self.now seat.old held.old.count }
        requires fits { held.old.count ≤ 2 ^ 62 }
        requires entry { (e : E) × (J.entry ≡ Some e) × IsOwn S.caller (node seat.old) e }

        // The seat has seen the entry, and has it among its calls where it is one.
        ensures row { (e : E) → J.entry ≡ Some e → row_of seat.new ≡ noted S.caller (row_of seat.old) e }

        // The state is still out with this seat, as it was.
        ensures holds { HoldsTurn self.now seat.new held.new.count }
        ensures kept { held.new.state ≡ held.old.state }
        ensures count { held.new.count ≡ held.old.count + 1 }
    {
        self.table
            .shared
            .fetch_add::<Note<J>>(&mut seat.place, COUNT, 1);
        held.count += 1;
    }

    /// Gives the state back, and keeps the remark that `J` names, if it names one.
    pub fn give<J: NamesRemark<Q>>(&self, seat: &mut Seat<S, O, E, Q>, held: Held<S>)
        requires seat { HoldsTurn self.now seat.old held.count }
        requires state { StandsFrom S.stands (opening seat.old) held.state (front seat.old) }
        ensures rests { Rests self.now seat.new }
        ensures row { row_of seat.new ≡ given (row_of seat.old) J.remark }
    {
        let Held { state, count: _ } = held;
        let shared = &self.table.shared;
        let was = shared.exchange(&mut seat.place, 0, Some(state));
        let None = was else { unreachable!() };
        let served = shared.fetch_add::<Give<J>>(&mut seat.place, SERVING, 1);
        if shared.peek(TICKET) != served.wrapping_add(1) {
            shared.wake_one(SERVING);
        }
    }

    /// Ends the turn where all its seats are there, and gives the state. It takes no memory.
    ///
    /// `Err` hands the turn and the seats back with the lowest number, from 1, whose seat is not among them.
    pub fn close<P: Seated<S, O, E, Q> + Drop>(
        self,
        mut seats: Vec<P>,
    ) -> Result<S, (Turn<S, O, E, Q>, Vec<P>, u32)>
        requires seats { All (λ seat. P.rests seat (id_of self)) seats.items }

        // All seats are there, and what they know is of one history, for which the state stands.
        ensures all { OnOk result (HasRows (map P.knows seats.items) (seats_of self)) }
        ensures whole { IfOk result (IsWhole S.stands S.caller (map P.knows seats.items)) }

        // A seat is missing, and nothing has changed.
        ensures missing { IfErr result (λ r. IsLowestRowMissing (map P.knows seats.items) (seats_of self) r.2) }
        ensures kept { IfErr result (λ r. (r.0 ≡ self) × (r.1.items ≡ seats.items)) }
    {
        if let Some(number) = first_missing::<S, O, E, Q, P>(seats.as_slice(), self.seats) {
            return Err((self, seats, number));
        }
        let Some(last) = seats.pop() else {
            unreachable!()
        };
        let Turn { table, seats: _ } = self;
        let last = last.into_seat();
        let mut place = last.into_place();
        while let Some(seat) = seats.pop() {
            let seat = seat.into_seat();
            let other = seat.into_place();
            table.shared.join_seat::<Glue>(&mut place, other);
        }
        let mut closed = table.close_with(place);
        let state = closed.take(0).unwrap();
        closed.free();
        Ok(state)
    }
}
