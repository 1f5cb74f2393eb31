//! What an end of a pair knows at the table of the two copies. No value of these types is made: they exist in proofs alone.
use std::collections::LinkedList;

/// Which pair an end is of: the names of its book, and the opening of what is published.
pub struct PairMark<O> {
    pub number: u64,
    pub log_name: u64,
    pub cells_name: u64,
    pub opening: O,
}

/// What the writer or a reader knows.
pub struct Known<O> {
    /// Which pair it is of, once it knows.
    pub mark: Option<PairMark<O>>,
    /// How many entries each look showed, in order.
    pub looks: LinkedList<u64>,
}
