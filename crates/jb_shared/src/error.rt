//! Why a call on a shared area is refused.

/// Why a call has no reply.
#[derive(Clone, Copy, Debug, PartialEq, Eq)]
pub enum SharedError {
    /// The device failed. The call is recorded, and the area is in doubt whether its change stands; or the area was in doubt
    /// and could not be reopened, and the call was not begun.
    StoreFault,
    /// The history has as many entries as it may have. Nothing was done.
    RunSpent,
    /// The allocator gave no memory. The area is as it was, but that a doubt may have been ended, and texts copied for a pack.
    OutOfMemory,
}

/// Why an area that is shared is not closed.
#[derive(Clone, Copy, Debug, PartialEq, Eq)]
pub enum CloseError {
    /// The pass of this node is not among those that were handed in; it is the lowest of the missing ones.
    PassMissing { node: u32 },
}
