//! What the head of a record says.

use jb_disk::Version;

/// The head of a journal's record: the version of the journal, and the number of the change, which is 0 in version 1.
#[derive(Clone, Copy, Debug, PartialEq, Eq)]
pub struct RecordHead {
    pub version: Version,
    pub change: u64,
}
