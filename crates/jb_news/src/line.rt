//! A line of a connection.
ghost use Rattle.std.specs.Prelude.{◌≡◌, ◌≤◌, length};

use std::marker::Model;

/// The most bytes of a line, without its end: 512 with it (RFC 3977 section 3.1).
pub(crate) const MOST_LINE_BYTES: usize = 510;

/// At most 510 bytes, in place. Contracts see the list of them.
#[derive(Drop)]
pub struct LineText {
    bytes: [u8; MOST_LINE_BYTES],
    len: usize,
}

impl Model for LineText {
    ghost use Rattle.std.specs.Prelude.{List, ℕ, ◌≤◌, take};

    ghost Value = { List ℕ };

    ghost view = { λ l. take l.len l.bytes };

    ghost invariant = { λ l. l.len ≤ 510 };
}

impl LineText {
    /// A copy of these bytes.
    pub(crate) fn copy(text: &[u8]) -> LineText
        requires { length text.now ≤ 510 }
        ensures { result ≡ text.now }
    {
        let mut bytes = [0; MOST_LINE_BYTES];
        bytes[..text.len()].copy_from_slice(text);
        LineText {
            bytes,
            len: text.len(),
        }
    }

    /// The bytes.
    pub fn as_slice(&self) -> &[u8]
        ensures value { result.now ≡ self.now }
        ensures fits { length result.now ≤ 510 }
    {
        &self.bytes[..self.len]
    }
}

/// A line without its end, or only that it is too long.
#[derive(Drop)]
pub enum NewsLine {
    Line(LineText),
    TooLong,
}
