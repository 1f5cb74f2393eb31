//! The ticket turn. It keeps a state behind a queue of tickets: the state is out with one seat at a time, the seats take
//! it in the order of their tickets (`specs/Rule.antt` says so, and no clause of a call), and whenever nobody has it, it
//! stands for one history of entries.
//!
//! The layer above says what its state stands for (`Kept`), takes the state with a seat, changes it, notes each entry that
//! it made and gives it back. Closing with every seat gives the state and shows that all that the seats know is of one
//! history.
#![tactic(auto)]

mod kept;
mod rule;
mod seat;
mod seated;
mod turn;
mod view;

pub use kept::{Kept, NamesEntry, NamesRemark};
pub use seat::{Held, RestingSeat, Seat, Turn};
pub use seated::Seated;
pub use view::{Row, TicketStage, View};
