//! The lines of a session, but for messages, replies and faults.
ghost use Rattle.std.specs.Prelude.{◌≡◌, ◌+◌, ◌≤◌, ◌++◌, length, IfOk, OnOk, IsTrue};
ghost use Rattle.jb_text.specs.Fixed.{fixed_text};
ghost use Rattle.jb_text.specs.Lines.{area_line_text, figures_text, listing_text, node_full_text, page_line_text, prompt_text, replying_text, start_text, welcome_text};

use crate::Fixed;
use crate::draft::{DRAFT_BYTES, LineDraft};
use crate::writing::{append_left, append_line_end, append_number, append_right, append_shown};
use itoa::Buffer;
use jb_base::{Bytes, OutOfMemory};
use std::alloc::Global;

/// How many bytes the fields of a message have at most, where its line in a list is drafted: a number has ten digits at most, and
/// seven bytes part it and the fields.
const DRAFTED_FIELDS: usize = DRAFT_BYTES - 17;

/// The bytes of a fixed text.
fn bytes_of(text: Fixed) -> &'static [u8]
    ensures { result.now ≡ fixed_text text }
{
    match text {
        Fixed::AskName => b"Name: ",
        Fixed::AskPassword => b"Password: ",
        Fixed::LoginIncorrect => b"Login incorrect.",
        Fixed::Goodbye => b"Goodbye.",
        Fixed::NoSuchArea => b"No such area.",
        Fixed::NoUnread => b"No unread messages.",
        Fixed::NoMessageShown => b"No message shown.",
        Fixed::AskTo => b"To: ",
        Fixed::AskSubject => b"Subject: ",
        Fixed::AskEdit => b"Subject (empty keeps): ",
        Fixed::AskPrivate => b"Private (Y/N): ",
        Fixed::Cancelled => b"Cancelled.",
        Fixed::TextFull => b"Text full, line dropped.",
        Fixed::TextLine => b"Text, . ends, ! cancels",
        Fixed::Nothing => b"Nothing.",
        Fixed::NoSuchNode => b"No such node.",
        Fixed::AskPage => b"Page: ",
        Fixed::PageSent => b"Sent.",
        Fixed::PagesSpent => b"Pages spent.",
        Fixed::NoPages => b"No pages.",
        Fixed::UnknownCommand => b"Unknown command.",
        Fixed::TopPrompt => b"Top> ",
    }
}

/// A text that is always the same, without an end of line.
pub fn fixed(alloc: Global, text: Fixed) -> Result<Bytes, OutOfMemory>
    ensures { IfOk result (λ bytes. bytes ≡ fixed_text text) }
{
    let bytes = Bytes::copy(alloc, bytes_of(text))?;
    Ok(bytes)
}

/// What a session begins with: the board's name on a line, and the question for the user's name.
pub fn start(alloc: Global, board: &[u8]) -> Result<Bytes, OutOfMemory>
    ensures { IfOk result (λ text. text ≡ start_text board.now) }
{
    let mut text = Bytes::new(alloc);
    append_shown(&mut text, board)?;
    append_line_end(&mut text)?;
    text.append(b"Name: ")?;
    Ok(text)
}

/// The greeting of the user with this name.
pub fn welcome(alloc: Global, name: &[u8]) -> Result<Bytes, OutOfMemory>
    ensures { IfOk result (λ text. text ≡ welcome_text name.now) }
{
    let mut text = Bytes::copy(alloc, b"Welcome, ")?;
    append_shown(&mut text, name)?;
    text.append(b".")?;
    Ok(text)
}

/// The prompt of the area with this name.
pub fn prompt(alloc: Global, area: &[u8]) -> Result<Bytes, OutOfMemory>
    ensures { IfOk result (λ text. text ≡ prompt_text area.now) }
{
    let mut text = Bytes::copy(alloc, b"[")?;
    append_shown(&mut text, area)?;
    text.append(b"] ")?;
    Ok(text)
}

/// An area in the list of areas: its number right in 3 places, two spaces, its name left in 24, and how many messages are
/// unread, right in 6. Each is longer where it needs more.
pub fn area_line(alloc: Global, ordinal: u8, name: &[u8], unread: u32) -> Result<Bytes, OutOfMemory>
    ensures { IfOk result (λ text. text ≡ area_line_text ordinal name.now unread) }
{
    let mut text = Bytes::new(alloc);
    append_right(&mut text, 3, u64::from(ordinal))?;
    text.append(b"  ")?;
    append_left(&mut text, 24, name)?;
    append_right(&mut text, 6, u64::from(unread))?;
    text.append(b" unread")?;
    Ok(text)
}

/// How many messages of an area a user sees, and how many of them are unread.
pub fn figures(alloc: Global, visible: u32, unread: u32) -> Result<Bytes, OutOfMemory>
    ensures { IfOk result (λ text. text ≡ figures_text visible unread) }
{
    let mut text = Bytes::new(alloc);
    append_number(&mut text, u64::from(visible))?;
    text.append(b" visible, ")?;
    append_number(&mut text, u64::from(unread))?;
    text.append(b" unread.")?;
    Ok(text)
}

/// Who is answered, and the subject of the answer.
pub fn replying(alloc: Global, from: &[u8], subject: &[u8]) -> Result<Bytes, OutOfMemory>
    ensures { IfOk result (λ text. text ≡ replying_text from.now subject.now) }
{
    let mut text = Bytes::copy(alloc, b"Reply to ")?;
    append_shown(&mut text, from)?;
    text.append(b", subject ")?;
    append_shown(&mut text, subject)?;
    Ok(text)
}

/// That so many pages wait for the node with this number that no more fit.
pub fn node_full(alloc: Global, node: u32) -> Result<Bytes, OutOfMemory>
    ensures { IfOk result (λ text. text ≡ node_full_text node) }
{
    let mut text = Bytes::copy(alloc, b"Node ")?;
    append_number(&mut text, u64::from(node))?;
    text.append(b" is full.")?;
    Ok(text)
}

/// A page, and the number of the node that sent it.
pub fn page_line(alloc: Global, from: u32, page: &[u8]) -> Result<Bytes, OutOfMemory>
    ensures { IfOk result (λ text. text ≡ page_line_text from page.now) }
{
    let mut text = Bytes::copy(alloc, b"Page from node ")?;
    append_number(&mut text, u64::from(from))?;
    text.append(b": ")?;
    append_shown(&mut text, page)?;
    Ok(text)
}

/// Whether the fields of a message are short enough for its line to be drafted.
fn are_short(from: &[u8], to: &[u8], subject: &[u8]) -> bool
    ensures { IsTrue result → length from.now + length to.now + length subject.now ≤ 111 }
{
    from.len()
        .saturating_add(to.len())
        .saturating_add(subject.len())
        <= DRAFTED_FIELDS
}

/// Puts a message in a list, whose fields are short, behind a text: drafted, and then at once.
fn append_drafted(
    text: &mut Bytes,
    number: u32,
    from: &[u8],
    to: &[u8],
    subject: &[u8],
) -> Result<(), OutOfMemory>
    requires { length from.now + length to.now + length subject.now ≤ 111 }
    ensures { OnOk result (text.new ≡ text.old ++ listing_text number from.now to.now subject.now) }
{
    let mut digits = Buffer::new();
    let figure = digits.format(number).as_bytes();
    let mut line = LineDraft::spaces(8usize.saturating_sub(figure.len()));
    line.put(figure);
    line.put(b"  ");
    line.put(from);
    line.put(b" > ");
    line.put(to);
    line.put(b"  ");
    line.put(subject);
    line.show();
    text.append(line.as_slice())?;
    Ok(())
}

/// Puts a message in a list behind a text, part by part.
fn append_parts(
    text: &mut Bytes,
    number: u32,
    from: &[u8],
    to: &[u8],
    subject: &[u8],
) -> Result<(), OutOfMemory>
    ensures { OnOk result (text.new ≡ text.old ++ listing_text number from.now to.now subject.now) }
{
    append_right(text, 8, u64::from(number))?;
    text.append(b"  ")?;
    append_shown(text, from)?;
    text.append(b" > ")?;
    append_shown(text, to)?;
    text.append(b"  ")?;
    append_shown(text, subject)?;
    Ok(())
}

/// Puts a message in a list behind a text: its number right in 8 places, sender, receiver and subject.
pub fn append_listing(
    text: &mut Bytes,
    number: u32,
    from: &[u8],
    to: &[u8],
    subject: &[u8],
) -> Result<(), OutOfMemory>
    ensures { OnOk result (text.new ≡ text.old ++ listing_text number from.now to.now subject.now) }
{
    if are_short(from, to, subject) {
        return append_drafted(text, number, from, to, subject);
    }
    append_parts(text, number, from, to, subject)
}

/// A message in a list: its number right in 8 places, sender, receiver and subject.
pub fn listing(
    alloc: Global,
    number: u32,
    from: &[u8],
    to: &[u8],
    subject: &[u8],
) -> Result<Bytes, OutOfMemory>
    ensures { IfOk result (λ text. text ≡ listing_text number from.now to.now subject.now) }
{
    let mut text = Bytes::new(alloc);
    append_listing(&mut text, number, from, to, subject)?;
    Ok(text)
}
