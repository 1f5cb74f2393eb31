//! The body of an article.
ghost use Rattle.std.specs.Prelude.{◌≡◌, ◌++◌, IfOk, OnOk, filter};
ghost use Rattle.jb_text.specs.Letter.{is_kept};
ghost use Rattle.jb_text.specs.Shown.{shown};
ghost use Rattle.jb_news.specs.Body.{body_line, body_text, stuffed};

use crate::words::{behind, place_of};
use crate::writing::show;
use jb_base::{Bytes, OutOfMemory};
use jb_text::append_line_end;
use std::alloc::Global;

/// A piece without line feeds, as it is shown.
fn shown_piece(alloc: Global, piece: &[u8]) -> Result<Bytes, OutOfMemory>
    ensures { IfOk result (λ bytes. bytes ≡ shown (filter is_kept piece.now)) }
{
    let mut bytes = Bytes::new(alloc);
    for byte in piece {
        if *byte != b'\n' {
            bytes.append(&[show(*byte)])?;
        }
    }
    Ok(bytes)
}

/// Puts bytes behind a text, with one stop more where they begin with one.
fn append_stuffed(text: &mut Bytes, bytes: &[u8]) -> Result<(), OutOfMemory>
    ensures { OnOk result (text.new ≡ text.old ++ stuffed bytes.now) }
{
    if let [b'.', ..] = bytes {
        text.append(b".")?;
    }
    text.append(bytes)
}

/// Puts a line of a body behind a text.
fn append_body_line(alloc: Global, text: &mut Bytes, piece: &[u8]) -> Result<(), OutOfMemory>
    ensures { OnOk result (text.new ≡ text.old ++ body_line piece.now) }
{
    let bytes = shown_piece(alloc, piece)?;
    append_stuffed(text, bytes.as_slice())?;
    append_line_end(text)?;
    Ok(())
}

/// Puts the body of an article behind a text: the message is cut at each carriage return, line feeds are left out, and a line
/// that begins with a stop gets one more. Each line has its end.
pub fn append_body(alloc: Global, text: &mut Bytes, message: &[u8]) -> Result<(), OutOfMemory>
    ensures { OnOk result (text.new ≡ text.old ++ body_text message.now) }
{
    let mut rest = message;
    while !rest.is_empty() {
        let end = place_of(b'\r', rest);
        append_body_line(alloc, text, &rest[..end])?;
        rest = behind(rest, end);
    }
    Ok(())
}
