//! The line as it is typed.
ghost use Rattle.std.specs.Prelude.{◌≡◌, ◌≤◌, ◌<◌, ◌-◌, ◌++◌, ◌∷◌, [], false, List, None, Some, take, length};
ghost use Rattle.jb_line.specs.declared.key.Key.{Key};
ghost use Rattle.jb_line.specs.Typing.{Typing, first_typing, retyped, without_last, typing_by, echo_of_byte, echo_by, line_by, typing_after, echo_of, line_of};
ghost use Rattle.jb_line.specs.Lines.{Placed, HasTyped, placed};

use crate::key::{Echo, Key, Meaning, STAR};
use crate::line::Line;
use jb_limits::MOST_LINE_BYTES;
use std::marker::Model;

/// The line so far.
///
/// It is seen as its text, whether the last key was a return, and whether the mask is on.
#[derive(Drop)]
pub struct LineEditor {
    bytes: [u8; MOST_LINE_BYTES],
    len: usize,
    after_return: bool,
    masked: bool,
}

impl Model for LineEditor {
    ghost use Rattle.std.specs.Prelude.{List, ℕ, take};
    ghost use Rattle.jb_line.specs.Typing.{Typing, IsPossibleLine};

    ghost Value = { Typing };

    ghost view = { λ e. record { text = take e.len e.bytes; after_return = e.after_return; masked = e.masked } };

    ghost invariant = { λ e. IsPossibleLine e.len e.after_return };
}

/// What came of a key.
#[derive(Drop)]
pub struct Typed {
    /// How it is echoed, where the board echoes.
    pub echo: Echo,
    /// The line that it ends, where it ends one.
    pub line: Option<Line>,
}

impl LineEditor {
    /// An empty line, with the mask off.
    pub fn new() -> LineEditor
        ensures value { result ≡ first_typing }
        ensures fits { HasTyped result [] [] }
    {
        LineEditor {
            bytes: [0; MOST_LINE_BYTES],
            len: 0,
            after_return: false,
            masked: false,
        }
    }

    /// From now on the bytes of a line are echoed as stars, or as they are.
    pub fn mask(&mut self, on: bool)
        ensures exact { self.new ≡ record self.old { masked = on } }
        ensures kept { (keys : List Key) (lines : List Placed) → HasTyped self.old keys lines
            → HasTyped self.new keys lines }
    {
        self.masked = on;
    }

    /// Takes a key.
    pub fn push(&mut self, key: Key) -> Typed
        ensures exact { self.new ≡ typing_after self.old key }
        ensures echo { result.echo ≡ echo_of self.old key }
        ensures line { result.line ≡ line_of self.old key }
        // After any list of keys, the lines that it has given are those of the whole list.
        ensures fits { (keys : List Key) (lines : List Placed) → HasTyped self.old keys lines
            → HasTyped self.new (keys ++ key ∷ []) (lines ++ placed (length keys) result.line) }
    {
        self.press(key.meaning())
    }

    fn press(&mut self, meaning: Meaning) -> Typed
        ensures exact { self.new ≡ typing_by self.old meaning }
        ensures echo { result.echo ≡ echo_by self.old meaning }
        ensures line { result.line ≡ line_by self.old meaning }
    {
        match meaning {
            Meaning::Return => self.end(true),
            Meaning::Feed => self.feed(),
            Meaning::DropLast => self.drop_last(),
            Meaning::DropAll => self.drop_all(),
            Meaning::Append(byte) => self.append(byte),
            Meaning::Ignore => self.ignore(),
        }
    }

    fn feed(&mut self) -> Typed
        ensures exact { self.new ≡ typing_by self.old Meaning.Feed }
        ensures echo { result.echo ≡ echo_by self.old Meaning.Feed }
        ensures line { result.line ≡ line_by self.old Meaning.Feed }
    {
        if self.after_return {
            self.ignore()
        } else {
            self.end(false)
        }
    }

    fn drop_last(&mut self) -> Typed
        ensures exact { self.new ≡ typing_by self.old Meaning.DropLast }
        ensures echo { result.echo ≡ echo_by self.old Meaning.DropLast }
        ensures line { result.line ≡ line_by self.old Meaning.DropLast }
    {
        if self.len() > 0 {
            self.rub(1)
        } else {
            self.ignore()
        }
    }

    fn drop_all(&mut self) -> Typed
        ensures exact { self.new ≡ typing_by self.old Meaning.DropAll }
        ensures echo { result.echo ≡ echo_by self.old Meaning.DropAll }
        ensures line { result.line ≡ line_by self.old Meaning.DropAll }
    {
        let len = self.len();
        if len > 0 {
            self.rub(len)
        } else {
            self.ignore()
        }
    }

    fn append(&mut self, byte: u8) -> Typed
        ensures exact { self.new ≡ typing_by self.old (Meaning.Append byte) }
        ensures echo { result.echo ≡ echo_by self.old (Meaning.Append byte) }
        ensures line { result.line ≡ line_by self.old (Meaning.Append byte) }
    {
        if (self.len() as usize) < MOST_LINE_BYTES {
            self.put(byte)
        } else {
            self.ignore()
        }
    }

    /// The line ends, and the next one begins.
    fn end(&mut self, returned: bool) -> Typed
        ensures exact { self.new ≡ record self.old { text = []; after_return = returned } }
        ensures echo { result.echo ≡ Echo.NewLine }
        ensures line { result.line ≡ Some self.old.text }
    {
        let line = Line {
            bytes: self.bytes,
            len: self.len,
        };
        self.len = 0;
        self.after_return = returned;
        Typed {
            echo: Echo::NewLine,
            line: Some(line),
        }
    }

    /// The line stays as it is.
    fn ignore(&mut self) -> Typed
        ensures exact { self.new ≡ record self.old { after_return = false } }
        ensures echo { result.echo ≡ Echo.Nothing }
        ensures line { result.line ≡ None }
    {
        self.after_return = false;
        echoed(Echo::Nothing)
    }

    /// So many bytes are dropped from the end.
    fn rub(&mut self, rubbed: u8) -> Typed
        requires { rubbed ≤ length self.old.text }
        ensures exact { self.new ≡ without_last rubbed self.old }
        ensures echo { result.echo ≡ Echo.Rub rubbed }
        ensures line { result.line ≡ None }
    {
        self.after_return = false;
        self.len -= rubbed as usize;
        echoed(Echo::Rub(rubbed))
    }

    /// The byte is put behind the others.
    fn put(&mut self, byte: u8) -> Typed
        requires { length self.old.text < MOST_LINE_BYTES }
        ensures exact { self.new ≡ retyped self.old (self.old.text ++ byte ∷ []) }
        ensures echo { result.echo ≡ echo_of_byte self.old.masked byte }
        ensures line { result.line ≡ None }
    {
        self.after_return = false;
        self.bytes[self.len] = byte;
        self.len += 1;
        echoed(Echo::One(if self.masked { STAR } else { byte }))
    }

    /// How many bytes the line has.
    fn len(&self) -> u8
        ensures value { result ≡ length self.now.text }
        ensures fits { result ≤ MOST_LINE_BYTES }
    {
        self.len as u8
    }
}

/// A key that ends no line.
fn echoed(echo: Echo) -> Typed
    ensures echo { result.echo ≡ echo }
    ensures line { result.line ≡ None }
{
    Typed { echo, line: None }
}
