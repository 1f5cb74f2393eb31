//! How an option stands on one side.

/// How an option stands on one side.
#[derive(Clone, Copy, PartialEq, Eq)]
pub enum Side {
    /// The board has offered it, and the caller has not said yet.
    Offered,
    /// It is in use.
    On,
    /// It is not in use.
    Off,
}
