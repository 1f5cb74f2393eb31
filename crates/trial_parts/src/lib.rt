//! What the program of trials asks of the parts of a board, below the area that nodes share: disks and journals in memory, with what a
//! crash leaves torn; areas, by calls in two parts; a host in memory with all that it hands out; the turn that seats take, and pages.
//!
//! Rows are those of `trial_rows`. The layer above may rely on what an area that is opened is by its contract, and on each row writing
//! what its comment says.
#![tactic(auto)]

mod adding;
mod calling;
mod case;
mod edge;
mod entrance;
mod host;
mod journal;
mod opening;
mod pages;
mod surroundings;
mod tearing;
mod turns;

pub use case::put_parts;
pub use journal::Journal;
pub use opening::{area_in, closed, live_on, open, open_on};
pub use pages::put_pages;
pub use surroundings::Surroundings;
pub use turns::put_seats;
