//! The calls that a disk in memory keeps.

use crate::FileId;

/// A call of a disk, as far as it may have changed a file. One that is not `done` changed nothing of what is read.
pub enum Call {
    /// A length, a read, a call past an end, or a sync that failed.
    NoChange,
    /// Bytes written over others.
    Wrote {
        file: FileId,
        at: u64,
        bytes: Vec<u8>,
        done: bool,
    },
    /// A new length.
    Resized {
        file: FileId,
        len: u64,
        done: bool,
    },
    /// A sync that was done.
    Synced {
        file: FileId,
    },
}

// Whoever lets go of one does so in one call.
impl Drop for Call {
    fn drop(self) {
        match self {
            Call::NoChange => {}
            Call::Wrote {
                file: _file,
                at: _at,
                bytes: _bytes,
                done: _done,
            } => {}
            Call::Resized {
                file: _file,
                len: _len,
                done: _done,
            } => {}
            Call::Synced { file: _file } => {}
        }
    }
}
