//! From bytes to lines, one byte at a time.
ghost use Rattle.std.specs.Prelude.{◌≡◌, ◌≤◌, ◌<◌, ◌++◌, ◌∷◌, [], List, ℕ, Some, None, length, take};
ghost use Rattle.std.specs.Str.Lines.{strip_carriage_return};
ghost use Rattle.jb_news.specs.Lines.{line_of};
ghost use Rattle.jb_news.specs.Reading.{HasRead, held, line_ended, lines_given};
ghost use Rattle.jb_news.specs.declared.line.NewsLine.{NewsLine};

use crate::line::{LineText, MOST_LINE_BYTES, NewsLine};
use std::marker::Model;

/// How many bytes of a line are held at most: with so many it is too long, whatever follows.
const MOST_HELD: usize = 512;

/// A line without one carriage return at its end.
fn without_return(text: &[u8]) -> &[u8]
    ensures { result.now ≡ strip_carriage_return text.now }
{
    match text.split_last() {
        Some((b'\r', before)) => before,
        _ => text,
    }
}

/// The lines of a connection, byte by byte. It holds the first 512 bytes of the line that it is in, and contracts see these.
#[derive(Drop)]
pub struct LineCutter {
    bytes: [u8; MOST_HELD],
    len: usize,
}

impl Model for LineCutter {
    ghost use Rattle.std.specs.Prelude.{List, ℕ, ◌≤◌, take};

    ghost Value = { List ℕ };

    ghost view = { λ c. take c.len c.bytes };

    ghost invariant = { λ c. c.len ≤ 512 };
}

impl LineCutter {
    /// At the beginning of a line, with no byte taken.
    pub fn new() -> LineCutter
        ensures { HasRead result [] [] }
    {
        LineCutter {
            bytes: [0; MOST_HELD],
            len: 0,
        }
    }

    /// Takes one byte, and gives the line that it ends, where it ends one.
    pub fn push(&mut self, byte: u8) -> Option<NewsLine>
        ensures found { result ≡ line_ended self.old byte }
        // After any list of pushes, the lines are those of all the bytes.
        ensures fits { (bytes : List ℕ) (lines : List NewsLine) → HasRead self.old bytes lines
            → HasRead self.new (bytes ++ byte ∷ []) (lines ++ lines_given result) }
    {
        if byte == b'\n' {
            let line = self.line();
            self.len = 0;
            Some(line)
        } else {
            self.hold(byte);
            None
        }
    }

    /// The bytes that are held as a line.
    fn line(&self) -> NewsLine
        ensures { result ≡ line_of self.now }
    {
        let text = without_return(&self.bytes[..self.len]);
        if text.len() <= MOST_LINE_BYTES {
            NewsLine::Line(LineText::copy(text))
        } else {
            NewsLine::TooLong
        }
    }

    /// Holds one byte more, where there is room.
    fn hold(&mut self, byte: u8)
        ensures { self.new ≡ held (self.old ++ byte ∷ []) }
    {
        if self.len() < MOST_HELD {
            self.put(byte);
        }
    }

    /// How many bytes are held.
    fn len(&self) -> usize
        ensures value { result ≡ length self.now }
        ensures most { result ≤ 512 }
    {
        self.len
    }

    /// Puts one byte behind the others.
    fn put(&mut self, byte: u8)
        requires { length self.old < 512 }
        ensures { self.new ≡ self.old ++ byte ∷ [] }
    {
        self.bytes[self.len] = byte;
        self.len += 1;
    }
}
