//! The headers of an article.
ghost use Rattle.std.specs.Prelude.{◌≡◌, ◌++◌, OnOk, codes};
ghost use Rattle.jb_text.specs.Letter.{heading};
ghost use Rattle.jb_news.specs.Charsets.{charset_name, field_text, folded, sender_text, whole_name};
ghost use Rattle.jb_news.specs.Dates.{mail_date};
ghost use Rattle.jb_news.specs.Names.{group_text, message_id};
ghost use Rattle.jb_news.specs.Headers.{first_headers, headers_text, mime_headers, names_text, references_text};

use crate::charset::{
    Charset, append_field, append_sender, charset_name, charset_of, whole_name, whole_subject,
};
use crate::dates::append_mail_date;
use crate::writing::{append_group, append_id};
use jb_base::{Bytes, OutOfMemory};
use jb_model::Letter;
use jb_text::append_line_end;
use std::alloc::Global;

/// Puts a header with a field behind a text.
fn append_heading(
    alloc: Global,
    text: &mut Bytes,
    label: &[u8],
    bytes: &[u8],
) -> Result<(), OutOfMemory>
    ensures { OnOk result (text.new ≡ text.old ++ heading label.now (field_text folded bytes.now)) }
{
    text.append(label)?;
    append_field(alloc, text, b"\r\n ", bytes)?;
    append_line_end(text)?;
    Ok(())
}

/// Puts the sender behind a text.
fn append_from(alloc: Global, text: &mut Bytes, from: &[u8]) -> Result<(), OutOfMemory>
    ensures { OnOk result (text.new ≡ text.old ++ heading (codes "From: ") (sender_text folded (whole_name from.now))) }
{
    text.append(b"From: ")?;
    append_sender(alloc, text, b"\r\n ", whole_name(from))?;
    append_line_end(text)?;
    Ok(())
}

/// Puts the way and the sender behind a text.
fn append_first(alloc: Global, text: &mut Bytes, from: &[u8]) -> Result<(), OutOfMemory>
    ensures { OnOk result (text.new ≡ text.old ++ first_headers from.now) }
{
    text.append(b"Path: jam.invalid!not-for-mail\r\n")?;
    append_from(alloc, text, from)?;
    Ok(())
}

/// Puts the date behind a text.
fn append_date(text: &mut Bytes, moment: u32) -> Result<(), OutOfMemory>
    ensures { OnOk result (text.new ≡ text.old ++ heading (codes "Date: ") (mail_date moment)) }
{
    text.append(b"Date: ")?;
    append_mail_date(text, moment)?;
    append_line_end(text)?;
    Ok(())
}

/// Puts the group behind a text.
fn append_newsgroups(text: &mut Bytes, area: u32) -> Result<(), OutOfMemory>
    ensures { OnOk result (text.new ≡ text.old ++ heading (codes "Newsgroups: ") (group_text area)) }
{
    text.append(b"Newsgroups: ")?;
    append_group(text, area)?;
    append_line_end(text)?;
    Ok(())
}

/// Puts a header with an id behind a text.
fn append_id_heading(
    text: &mut Bytes,
    label: &[u8],
    area: u32,
    number: u32,
) -> Result<(), OutOfMemory>
    ensures { OnOk result (text.new ≡ text.old ++ heading label.now (message_id area number)) }
{
    text.append(label)?;
    append_id(text, area, number)?;
    append_line_end(text)?;
    Ok(())
}

/// Puts the group and the id behind a text.
fn append_names(text: &mut Bytes, area: u32, number: u32) -> Result<(), OutOfMemory>
    ensures { OnOk result (text.new ≡ text.old ++ names_text area number) }
{
    append_newsgroups(text, area)?;
    append_id_heading(text, b"Message-ID: ", area, number)?;
    Ok(())
}

/// Puts the id of the article that is answered behind a text, where one is.
fn append_references(text: &mut Bytes, area: u32, reply_to: u32) -> Result<(), OutOfMemory>
    ensures { OnOk result (text.new ≡ text.old ++ references_text area reply_to) }
{
    if reply_to == 0 {
        return Ok(());
    }
    append_id_heading(text, b"References: ", area, reply_to)
}

/// Puts the charset of a body behind a text.
fn append_charset(text: &mut Bytes, charset: Charset) -> Result<(), OutOfMemory>
    ensures { OnOk result (text.new ≡ text.old ++ heading (codes "Content-Type: text/plain; charset=") (charset_name charset)) }
{
    text.append(b"Content-Type: text/plain; charset=")?;
    text.append(charset_name(charset))?;
    append_line_end(text)?;
    Ok(())
}

/// Puts what a body is behind a text.
fn append_mime(text: &mut Bytes, charset: Charset) -> Result<(), OutOfMemory>
    ensures { OnOk result (text.new ≡ text.old ++ mime_headers charset) }
{
    text.append(b"MIME-Version: 1.0\r\n")?;
    append_charset(text, charset)?;
    text.append(b"Content-Transfer-Encoding: 8bit\r\n")?;
    Ok(())
}

/// Puts the headers of an article of this area behind a text, each with its end.
pub fn append_headers(
    alloc: Global,
    text: &mut Bytes,
    area: u32,
    letter: &Letter,
) -> Result<(), OutOfMemory>
    ensures { OnOk result (text.new ≡ text.old ++ headers_text area letter.now) }
{
    append_first(alloc, text, letter.from.as_slice())?;
    append_heading(
        alloc,
        text,
        b"Subject: ",
        whole_subject(letter.subject.as_slice()),
    )?;
    append_date(text, letter.written)?;
    append_names(text, area, letter.number)?;
    append_references(text, area, letter.reply_to)?;
    append_heading(alloc, text, b"X-JAM-To: ", whole_name(letter.to.as_slice()))?;
    append_mime(text, charset_of(letter.text.as_slice()))?;
    Ok(())
}
