//! A value that one writer publishes and many readers look at, waiting for nobody. What was published is one list of
//! entries that only grows, and each end knows a beginning of it.
//!
//! The two copies of the value lie in `left_right`, which carries data alone. What is known goes by tokens of a
//! `logbook`, whose log is the list: a [`Front`] is a beginning of it with its length, is copied without cost, and of two
//! fronts of one pair the shorter begins the longer. Each published copy carries the front of the list that it stands for.
//!
//! The layer above says when its value stands for a list ([`Published`]) and what a change makes of it ([`Absorbs`]),
//! makes both ends by [`pair`], queues changes and shows them ([`Shower`]), tells the readers ([`Shown`]) what was
//! published, and looks.
#![tactic(auto)]

mod edition;
mod ends;
mod front;
mod known;
mod list;
mod meaning;
mod pairing;
mod reader;
mod rule;
mod writer;

pub use ends::{ROOM, Shower, Shown, Sight};
pub use front::Front;
pub use known::{Known, PairMark};
pub use meaning::{Absorbs, NamesList, NamesOpening, Published};
pub use pairing::pair;
