//! What a turn leaves that is no entry.

/// How a turn of a pass ended that left no entry in the history. It is kept in proofs alone.
#[derive(Clone, Copy)]
pub enum Refusal {
    /// The history has as many entries as it may have.
    Spent,
    /// It was a step of a pack: so many bytes the texts of the area have then, where one is left to copy; none, where none is left,
    /// or none may be copied.
    Stepped { left: Option<u64> },
}
