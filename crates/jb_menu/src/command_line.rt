//! What a line at a command prompt says.
ghost use Rattle.std.specs.Prelude.{◌≡◌};
ghost use Rattle.jb_menu.specs.CommandLines.{behind_letter, command_of, command_letter, typed_number, parsed, without_first_spaces, without_last_spaces};

use jb_text::number_up_to;

/// The letters of the commands.
#[derive(Clone, Copy)]
pub enum CommandLetter {
    A,
    B,
    E,
    G,
    K,
    L,
    M,
    N,
    P,
    Q,
    R,
    S,
    T,
    X,
    Y,
    Z,
}

/// A line at a command prompt: nothing, a letter, a letter and a number, or a number; else it is unknown.
#[derive(Clone, Copy)]
pub enum CommandLine {
    Empty,
    Letter(CommandLetter),
    LetterNumber(CommandLetter, u32),
    Number(u32),
    Unknown,
}

/// The letter that a byte is, in either case.
fn letter_of(byte: u8) -> Option<CommandLetter>
    ensures { result ≡ command_letter byte }
{
    match byte.to_ascii_uppercase() {
        b'A' => Some(CommandLetter::A),
        b'B' => Some(CommandLetter::B),
        b'E' => Some(CommandLetter::E),
        b'G' => Some(CommandLetter::G),
        b'K' => Some(CommandLetter::K),
        b'L' => Some(CommandLetter::L),
        b'M' => Some(CommandLetter::M),
        b'N' => Some(CommandLetter::N),
        b'P' => Some(CommandLetter::P),
        b'Q' => Some(CommandLetter::Q),
        b'R' => Some(CommandLetter::R),
        b'S' => Some(CommandLetter::S),
        b'T' => Some(CommandLetter::T),
        b'X' => Some(CommandLetter::X),
        b'Y' => Some(CommandLetter::Y),
        b'Z' => Some(CommandLetter::Z),
        _ => None,
    }
}

/// The number that a text is.
fn number_of(text: &[u8]) -> Option<u32>
    ensures { result ≡ typed_number text.now }
{
    number_up_to(u32::MAX, text)
}

/// The text without the spaces before it.
fn without_first_spaces(text: &[u8]) -> &[u8]
    ensures { result.now ≡ without_first_spaces text.now }
{
    let mut rest = text;
    while let [b' ', after @ ..] = rest {
        rest = after;
    }
    rest
}

/// The text without the spaces behind it.
fn without_last_spaces(text: &[u8]) -> &[u8]
    ensures { result.now ≡ without_last_spaces text.now }
{
    let mut rest = text;
    while let Some((last, before)) = rest.split_last() {
        if *last != b' ' {
            return rest;
        }
        rest = before;
    }
    rest
}

/// What stands behind a letter: nothing, or spaces and a number.
fn behind_letter(letter: CommandLetter, text: &[u8]) -> CommandLine
    ensures { result ≡ behind_letter letter text.now }
{
    match text {
        [] => CommandLine::Letter(letter),
        [b' ', ..] => {
            match number_of(without_first_spaces(text)) {
                Some(number) => CommandLine::LetterNumber(letter, number),
                None => CommandLine::Unknown,
            }
        }
        _ => CommandLine::Unknown,
    }
}

/// What a line without spaces at its ends says.
fn parsed(text: &[u8]) -> CommandLine
    ensures { result ≡ parsed text.now }
{
    let Some((first, rest)) = text.split_first() else {
        return CommandLine::Empty;
    };
    if let Some(number) = number_of(text) {
        return CommandLine::Number(number);
    }
    match letter_of(*first) {
        Some(letter) => behind_letter(letter, rest),
        None => CommandLine::Unknown,
    }
}

/// What a line at a command prompt says; spaces at its ends do not matter. It takes a time that grows as the line.
pub fn command_of(line: &[u8]) -> CommandLine
    ensures { result ≡ command_of line.now }
{
    parsed(without_last_spaces(without_first_spaces(line)))
}
