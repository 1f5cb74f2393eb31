//! Where a change was stopped, and what opening found.

/// Where a commit was stopped by a fault: before the gate is known to stand open on the disk, or after. `Late` means that
/// the change will stand.
#[derive(Clone, Copy, Debug, PartialEq, Eq)]
pub enum Stopped {
    Early,
    Late,
}
