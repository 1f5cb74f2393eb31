//! The marks of an open area: found by the pair of a name's CRC and a user's number, and set in place (JAM, "Lastread
//! file").
//!
//! The layer above may rely on this: a [`MarkIndex`] finds the first mark of a pair in a list of marks that it is given with
//! each call, and follows the list where a mark is set. A [`Marks`] is such a list with its index, and room for so many more.
//! [`Marks::find`] gives the first mark of a pair, and [`Marks::set`] changes that one or puts one last.
//!
//! Cost: an index takes four bytes a mark. A `find` or a `place_of` looks at about as many marks as their number has binary
//! digits, and so does a `set` of a pair that is there. A new pair is looked for twice, and moves at most the whole index; it
//! takes no memory. `of` and `copy` sort the index, `replace` copies it, with the marks where they are its own; `reserve` moves
//! what the room is asked for where it is not there yet; `as_slice` costs nothing.
#![tactic(auto)]

mod index;
mod marks;
mod order;

pub use index::MarkIndex;
pub use marks::Marks;
