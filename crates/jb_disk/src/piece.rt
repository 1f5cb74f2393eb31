//! The parts of a change: lengths and pieces.

use crate::FileId;
use jb_bytes::Bytes;

/// A file's new length in bytes.
#[derive(Clone, Copy)]
pub struct Length {
    pub file: FileId,
    pub len: u64,
}

/// Bytes that are written into a file: given ones, or some that another file holds.
pub enum Piece {
    Bytes {
        file: FileId,
        at: u64,
        bytes: Bytes,
    },
    Copy {
        from: FileId,
        from_at: u64,
        to: FileId,
        to_at: u64,
        len: u64,
    },
}

// Whoever lets go of one does so in one call.
impl Drop for Piece {
    fn drop(self) {
        match self {
            Piece::Bytes {
                file: _file,
                at: _at,
                bytes: _bytes,
            } => {}
            Piece::Copy {
                from: _from,
                from_at: _from_at,
                to: _to,
                to_at: _to_at,
                len: _len,
            } => {}
        }
    }
}

/// A piece without its bytes. Where it is no copy, `from` is `to` and `from_at` is 0.
#[derive(Clone, Copy)]
pub struct PieceHead {
    pub copy: bool,
    pub from: FileId,
    pub from_at: u64,
    pub to: FileId,
    pub to_at: u64,
    pub len: u64,
}
