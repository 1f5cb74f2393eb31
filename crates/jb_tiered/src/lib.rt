//! A vector in pieces, in which an insertion and a removal cost the same at each place and almost the same at each length:
//! a tiered vector.
//!
//! The layer above may rely on this: a [`Tiered`] is seen by contracts as a list and the room behind it, and its calls
//! say what those of std's `Vec` do. What is put in takes no memory, [`Tiered::reserve`] does.
//!
//! The elements stand in pieces of 512, each a ring, and all pieces are full but the last that has any. So an element
//! is found by its place at once, and [`Tiered::set`] changes it there. An insertion or a removal moves up to 256 elements
//! within one piece, and then one element over the border of each later piece: in a list of 60,000 elements up to 117 of
//! them. [`Tiered::push`] moves none, and [`Tiered::copied`] copies whole pieces.
#![tactic(auto)]

mod pieces;
mod tiered;

pub use tiered::Tiered;
