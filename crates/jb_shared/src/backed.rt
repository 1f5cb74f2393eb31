//! What a backup has copied.

/// A backup that was made: how many entries the history of the area had then, and how many live messages the area.
#[derive(Clone, Copy, Debug, PartialEq, Eq)]
pub struct Backed {
    pub entries: u64,
    pub live: u32,
}
