//! A line that was typed.
ghost use Rattle.std.specs.Prelude.{◌≡◌, ◌≤◌, length};

use jb_limits::MOST_LINE_BYTES;
use std::marker::Model;

/// A line of at most 78 bytes, in place. Contracts see the list of its bytes.
#[derive(Drop)]
pub struct Line {
    pub(crate) bytes: [u8; MOST_LINE_BYTES],
    pub(crate) len: usize,
}

impl Model for Line {
    ghost use Rattle.std.specs.Prelude.{List, ℕ, ◌≤◌, take};
    ghost use Rattle.jb_limits.specs.declared.limits.TheConstants.{MOST_LINE_BYTES};

    ghost Value = { List ℕ };

    ghost view = { λ l. take l.len l.bytes };

    ghost invariant = { λ l. l.len ≤ MOST_LINE_BYTES };
}

impl Line {
    /// The bytes of the line, without its end.
    pub fn as_slice(&self) -> &[u8]
        ensures value { result.now ≡ self.now }
        ensures fits { length result.now ≤ MOST_LINE_BYTES }
    {
        &self.bytes[..self.len]
    }
}
