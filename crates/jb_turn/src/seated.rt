//! What holds a seat, so that closing takes it in.
ghost use Rattle.std.specs.Prelude.{◌≡◌};
ghost use Rattle.jb_turn.specs.Seats.{TurnId, node, row_of, turn_of, resting_row, resting_turn, HasNoTicket};
ghost use Rattle.jb_turn.specs.declared.view.Row.{Row};

use crate::seat::{RestingSeat, Seat};

/// What holds a seat: the seat itself, its resting form, or a type of the layer above that keeps it in one of these.
pub trait Seated<S, O, E, Q> {
    // The seat is of this turn, and does not hold it.
    ghost rests: { Self → TurnId → Type 0 };

    // What the seat knows.
    ghost knows: { Self → Row O E Q };

    /// The number of the seat's node, from 1.
    fn number(&self) -> u32
        ensures { result ≡ (knows self.now).node };

    /// The seat itself.
    fn into_seat(self) -> Seat<S, O, E, Q>
        ensures rests { (turn : TurnId) → rests self turn → (turn_of result ≡ turn) × HasNoTicket result }
        ensures knows { row_of result ≡ knows self };
}

impl<S, O, E, Q> Seated<S, O, E, Q> for Seat<S, O, E, Q> {
    ghost use Rattle.jb_turn.specs.Seats.{row_of, turn_of, HasNoTicket};

    ghost rests = { λ seat turn. (turn_of seat ≡ turn) × HasNoTicket seat };

    ghost knows = { row_of };

    fn number(&self) -> u32 {
        self.node
    }

    fn into_seat(self) -> Seat<S, O, E, Q> {
        self
    }
}

impl<S, O, E, Q> Seated<S, O, E, Q> for RestingSeat<O, E, Q> {
    ghost use Rattle.jb_turn.specs.Seats.{resting_row, resting_turn};

    ghost rests = { λ seat turn. resting_turn seat ≡ turn };

    ghost knows = { resting_row };

    fn number(&self) -> u32 {
        self.node
    }

    fn into_seat(self) -> Seat<S, O, E, Q> {
        self.wake()
    }
}
