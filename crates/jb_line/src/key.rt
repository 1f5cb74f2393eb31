//! Keys, what each means, and how it is echoed.
ghost use Rattle.std.specs.Prelude.{◌≡◌};
ghost use Rattle.jb_line.specs.Keys.{meaning_of};

/// The character set's BS, as a key that erases.
pub const BACKSPACE: u8 = 8;
/// The character set's LF.
pub const LINE_FEED: u8 = 10;
/// The character set's CR.
pub const RETURN: u8 = 13;
/// The first byte that is put into a line.
pub const SPACE: u8 = 32;
/// What stands for a byte under the mask.
pub const STAR: u8 = b'*';
/// The character set's DEL, as a key that erases.
pub const DELETE: u8 = 127;

/// A key that was pressed.
#[derive(Clone, Copy, PartialEq, Eq)]
pub enum Key {
    /// A byte of data.
    Byte(u8),
    /// The Telnet command EC.
    EraseChar,
    /// The Telnet command EL.
    EraseLine,
}

/// How a key is echoed.
#[derive(Clone, Copy, PartialEq, Eq)]
pub enum Echo {
    Nothing,
    /// This byte.
    One(u8),
    /// So many characters are rubbed out.
    Rub(u8),
    /// A new line begins.
    NewLine,
}

/// What a key does to a line.
#[derive(Clone, Copy)]
pub(crate) enum Meaning {
    /// Ends the line.
    Return,
    /// Ends the line, but not behind a return.
    Feed,
    /// Drops the last byte.
    DropLast,
    /// Drops all bytes.
    DropAll,
    /// Puts a byte behind the others, where there is room.
    Append(u8),
    /// Nothing.
    Ignore,
}

impl Key {
    pub(crate) fn meaning(self) -> Meaning
        ensures { result ≡ meaning_of self }
    {
        match self {
            Key::EraseChar => Meaning::DropLast,
            Key::EraseLine => Meaning::DropAll,
            Key::Byte(byte) => {
                match byte {
                    RETURN => Meaning::Return,
                    LINE_FEED => Meaning::Feed,
                    BACKSPACE | DELETE => Meaning::DropLast,
                    _ => {
                        if byte < SPACE {
                            Meaning::Ignore
                        } else {
                            Meaning::Append(byte)
                        }
                    }
                }
            }
        }
    }
}
