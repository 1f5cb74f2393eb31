//! A message as its reader sees it.
ghost use Rattle.std.specs.Prelude.{◌≡◌, ◌+◌, ◌≤◌, ◌++◌, length, drop, filter, flat_map, codes, IfOk, OnOk, pos, neg_ℤ};
ghost use Rattle.std.specs.List.{position_or_len};
ghost use Rattle.jiff_core.specs.Calendar.{IsBetween};
ghost use Rattle.jb_text.specs.Date.{date_text};
ghost use Rattle.jb_text.specs.Letter.{body_text, ends_line, heading, heading_text, is_kept, letter_text, line, lines_of, piece_text};
ghost use Rattle.jb_text.specs.Shown.{shown};

use crate::date;
use crate::writing::{append_line_end, append_number, append_shown, show};
use jb_base::{Bytes, OutOfMemory};
use jb_model::Letter;
use std::alloc::Global;

/// The most bytes in a line of a message.
const LINE_BYTES: usize = 79;

/// Puts a line behind a text.
fn append_line(text: &mut Bytes, bytes: &[u8]) -> Result<(), OutOfMemory>
    ensures { OnOk result (text.new ≡ text.old ++ line bytes.now) }
{
    text.append(bytes)?;
    append_line_end(text)?;
    Ok(())
}

/// Puts the lines of a piece behind a text.
fn append_lines(text: &mut Bytes, piece: &[u8]) -> Result<(), OutOfMemory>
    ensures { OnOk result (text.new ≡ text.old ++ flat_map line (lines_of piece.now)) }
{
    let mut rest = piece;
    while rest.len() > LINE_BYTES {
        let (full, after) = rest.split_at(LINE_BYTES);
        append_line(text, full)?;
        rest = after;
    }
    append_line(text, rest)?;
    Ok(())
}

/// A piece without line feeds, as it is shown.
fn shown_piece(alloc: Global, piece: &[u8]) -> Result<Bytes, OutOfMemory>
    ensures { IfOk result (λ bytes. bytes ≡ shown (filter is_kept piece.now)) }
{
    let mut bytes = Bytes::new(alloc);
    for byte in piece {
        if *byte != b'\n' {
            bytes.append(&[show(*byte)])?;
        }
    }
    Ok(bytes)
}

/// Puts a piece of a message behind a text.
fn append_piece(alloc: Global, text: &mut Bytes, piece: &[u8]) -> Result<(), OutOfMemory>
    ensures { OnOk result (text.new ≡ text.old ++ piece_text piece.now) }
{
    let bytes = shown_piece(alloc, piece)?;
    append_lines(text, bytes.as_slice())?;
    Ok(())
}

/// Where the first piece of a message ends: at its first carriage return, without one at its end.
fn piece_end(message: &[u8]) -> usize
    ensures end { result ≡ position_or_len ends_line message.now }
    ensures within { result ≤ length message.now }
{
    for (place, byte) in message.iter().enumerate() {
        if *byte == b'\r' {
            return place;
        }
    }
    message.len()
}

/// What stands behind the byte at this place, if anything.
fn behind(message: &[u8], place: usize) -> &[u8]
    requires { place ≤ length message.now }
    ensures { result.now ≡ drop (place + 1) message.now }
{
    let (_, after) = message.split_at((place + 1).min(message.len()));
    after
}

/// Puts the text of a message behind a text.
fn append_body(alloc: Global, text: &mut Bytes, message: &[u8]) -> Result<(), OutOfMemory>
    ensures { OnOk result (text.new ≡ text.old ++ body_text message.now) }
{
    let mut rest = message;
    while !rest.is_empty() {
        let end = piece_end(rest);
        append_piece(alloc, text, &rest[..end])?;
        rest = behind(rest, end);
    }
    Ok(())
}

/// Puts a line of the heading behind a text: its label, and a value as it is shown.
fn append_heading(text: &mut Bytes, label: &[u8], value: &[u8]) -> Result<(), OutOfMemory>
    ensures { OnOk result (text.new ≡ text.old ++ heading label.now (shown value.now)) }
{
    text.append(label)?;
    append_shown(text, value)?;
    append_line_end(text)?;
    Ok(())
}

/// Puts the line of the date behind a text.
fn append_date(text: &mut Bytes, moment: u32, offset: i32) -> Result<(), OutOfMemory>
    requires { IsBetween (neg_ℤ (pos 840)) (pos 840) offset }
    ensures { OnOk result (text.new ≡ text.old ++ heading (codes "Date: ") (date_text moment offset)) }
{
    text.append(b"Date: ")?;
    text.append(&date(moment, offset))?;
    append_line_end(text)?;
    Ok(())
}

/// The heading of a message: its number, sender, receiver, subject and date.
fn heading_of(alloc: Global, letter: &Letter, offset: i32) -> Result<Bytes, OutOfMemory>
    requires { IsBetween (neg_ℤ (pos 840)) (pos 840) offset }
    ensures { IfOk result (λ text. text ≡ heading_text letter.now offset) }
{
    let mut text = Bytes::copy(alloc, b"Message ")?;
    append_number(&mut text, u64::from(letter.number))?;
    append_line_end(&mut text)?;
    append_heading(&mut text, b"From: ", letter.from.as_slice())?;
    append_heading(&mut text, b"To: ", letter.to.as_slice())?;
    append_heading(&mut text, b"Subject: ", letter.subject.as_slice())?;
    append_date(&mut text, letter.written, offset)?;
    Ok(text)
}

/// A message as its reader sees it: its number, sender, receiver, subject and date, then the text between two empty lines.
/// The offset is how many minutes the reader's clock is ahead. The text is cut at each carriage return, line feeds are left
/// out, and each piece is cut into lines of 79 bytes. Each line has its end.
pub fn letter(alloc: Global, letter: &Letter, offset: i32) -> Result<Bytes, OutOfMemory>
    requires { IsBetween (neg_ℤ (pos 840)) (pos 840) offset }
    ensures { IfOk result (λ text. text ≡ letter_text letter.now offset) }
{
    let mut text = heading_of(alloc, letter, offset)?;
    append_line_end(&mut text)?;
    append_body(alloc, &mut text, letter.text.as_slice())?;
    append_line_end(&mut text)?;
    Ok(text)
}
