//! Bytes above 127 in a header.
ghost use Rattle.std.specs.Prelude.{◌≡◌, ◌≤◌, ◌++◌, length, take, drop, map, codes, IfOk, OnOk};
ghost use Rattle.std.specs.List.{list_any};
ghost use Rattle.std.specs.Str.Lossy.{utf8_valid_len};
ghost use Rattle.jb_news.specs.Charsets.{begins_at, charset_name, charset_of, encoded, encoded_word, field_text, is_high, parting, piece_length, quoted_byte, sender_text, whole_characters, whole_name, whole_subject};

use crate::writing::{append_shown, show};
use base64::engine::general_purpose::STANDARD;
use jb_base::{Bytes, MOST_NAME_BYTES, MOST_SUBJECT_BYTES, OutOfMemory};
use std::alloc::Global;

/// The charset of a body, or of a field of a header.
#[derive(Clone, Copy, PartialEq, Eq)]
pub enum Charset {
    Utf8,
    Ibm437,
}

/// How long the longest front is that is UTF-8.
fn valid_length(bytes: &[u8]) -> usize
    ensures value { result ≡ utf8_valid_len bytes.now }
    ensures within { result ≤ length bytes.now }
{
    match str::from_utf8(bytes) {
        Ok(_) => bytes.len(),
        Err(fault) => fault.valid_up_to(),
    }
}

/// The charset of bytes: UTF-8 where they are, and else that of the terminals.
pub(crate) fn charset_of(bytes: &[u8]) -> Charset
    ensures { result ≡ charset_of bytes.now }
{
    if valid_length(bytes) == bytes.len() {
        Charset::Utf8
    } else {
        Charset::Ibm437
    }
}

/// Bytes without a character of UTF-8 that they may have been cut in, where they are as many as lists and menus keep.
fn whole_characters(most: usize, bytes: &[u8]) -> &[u8]
    ensures { result.now ≡ whole_characters most bytes.now }
{
    let valid = valid_length(bytes);
    if bytes.len() == most && most <= valid + 3 {
        &bytes[..valid]
    } else {
        bytes
    }
}

/// A subject without a character that it may have been cut in.
pub(crate) fn whole_subject(subject: &[u8]) -> &[u8]
    ensures { result.now ≡ whole_subject subject.now }
{
    whole_characters(MOST_SUBJECT_BYTES, subject)
}

/// A name without a character that it may have been cut in.
pub(crate) fn whole_name(name: &[u8]) -> &[u8]
    ensures { result.now ≡ whole_name name.now }
{
    whole_characters(MOST_NAME_BYTES, name)
}

/// The name of a charset.
pub(crate) fn charset_name(charset: Charset) -> &'static [u8]
    ensures { result.now ≡ charset_name charset }
{
    match charset {
        Charset::Utf8 => b"UTF-8",
        Charset::Ibm437 => b"IBM437",
    }
}

/// Whether a byte is above 127.
fn has_high(bytes: &[u8]) -> bool
    ensures { result ≡ list_any is_high bytes.now }
{
    bytes.iter().any(|byte| *byte > 127)
}

/// Whether no character of UTF-8 goes on at this place.
fn begins_at(bytes: &[u8], place: usize) -> bool
    ensures { result ≡ begins_at bytes.now place }
{
    let byte = if place < bytes.len() { bytes[place] } else { 0 };
    !(128 <= byte && byte < 192)
}

/// How many bytes the first encoded word takes at most.
fn piece_length(charset: Charset, bytes: &[u8]) -> usize
    ensures value { result ≡ piece_length charset bytes.now }
    ensures least { 36 ≤ result }
{
    match charset {
        Charset::Ibm437 => 39,
        Charset::Utf8 => {
            if begins_at(bytes, 39) {
                39
            } else if begins_at(bytes, 38) {
                38
            } else if begins_at(bytes, 37) {
                37
            } else if begins_at(bytes, 36) {
                36
            } else {
                39
            }
        }
    }
}

/// Puts bytes behind a text as one encoded word.
fn append_word(
    alloc: Global,
    text: &mut Bytes,
    charset: Charset,
    bytes: &[u8],
) -> Result<(), OutOfMemory>
    ensures { OnOk result (text.new ≡ text.old ++ encoded_word charset bytes.now) }
{
    let word = STANDARD.encode(alloc, bytes)?;
    text.append(b"=?")?;
    text.append(charset_name(charset))?;
    text.append(b"?B?")?;
    text.append(word.as_bytes())?;
    text.append(b"?=")?;
    Ok(())
}

/// Parts words where these bytes are still to come.
fn append_parting(text: &mut Bytes, fold: &[u8], rest: &[u8]) -> Result<(), OutOfMemory>
    ensures { OnOk result (text.new ≡ text.old ++ parting fold.now rest.now) }
{
    if rest.is_empty() {
        return Ok(());
    }
    text.append(fold)
}

/// The bytes around a place, which may lie behind all.
fn split(bytes: &[u8], place: usize) -> (&[u8], &[u8])
    ensures front { result.0.now ≡ take place bytes.now }
    ensures behind { result.1.now ≡ drop place bytes.now }
{
    if place <= bytes.len() {
        bytes.split_at(place)
    } else {
        bytes.split_at(bytes.len())
    }
}

/// Puts bytes behind a text as encoded words.
fn append_encoded(
    alloc: Global,
    text: &mut Bytes,
    fold: &[u8],
    charset: Charset,
    bytes: &[u8],
) -> Result<(), OutOfMemory>
    ensures { OnOk result (text.new ≡ text.old ++ encoded fold.now charset bytes.now) }
{
    let mut rest = bytes;
    while !rest.is_empty() {
        let (front, behind) = split(rest, piece_length(charset, rest));
        append_word(alloc, text, charset, front)?;
        append_parting(text, fold, behind)?;
        rest = behind;
    }
    Ok(())
}

/// Puts a field of a header behind a text: as it is shown, and in encoded words where a byte is above 127.
pub(crate) fn append_field(
    alloc: Global,
    text: &mut Bytes,
    fold: &[u8],
    bytes: &[u8],
) -> Result<(), OutOfMemory>
    ensures { OnOk result (text.new ≡ text.old ++ field_text fold.now bytes.now) }
{
    if !has_high(bytes) {
        return append_shown(text, bytes);
    }
    let mut field = Bytes::new(alloc);
    append_shown(&mut field, bytes)?;
    append_encoded(alloc, text, fold, charset_of(bytes), field.as_slice())
}

/// A byte of a name: no quote and no backslash.
fn quoted_byte(byte: u8) -> u8
    ensures { result ≡ quoted_byte byte }
{
    if byte == b'"' || byte == b'\\' {
        b'?'
    } else {
        show(byte)
    }
}

/// A name without quotes and backslashes.
fn quoted(alloc: Global, name: &[u8]) -> Result<Bytes, OutOfMemory>
    ensures { IfOk result (λ bytes. bytes ≡ map quoted_byte name.now) }
{
    let mut bytes = Bytes::new(alloc);
    for byte in name {
        bytes.append(&[quoted_byte(*byte)])?;
    }
    Ok(bytes)
}

/// Puts a sender in encoded words behind a text.
fn append_encoded_sender(
    alloc: Global,
    text: &mut Bytes,
    fold: &[u8],
    charset: Charset,
    name: &[u8],
) -> Result<(), OutOfMemory>
    ensures { OnOk result (text.new ≡ text.old
        ++ (encoded fold.now charset name.now ++ fold.now ++ codes "<board@jam.invalid>")) }
{
    append_encoded(alloc, text, fold, charset, name)?;
    text.append(fold)?;
    text.append(b"<board@jam.invalid>")?;
    Ok(())
}

/// Puts a sender in quotes behind a text.
fn append_quoted_sender(text: &mut Bytes, name: &[u8]) -> Result<(), OutOfMemory>
    ensures { OnOk result (text.new ≡ text.old
        ++ (codes "\"" ++ name.now ++ codes "\" <board@jam.invalid>")) }
{
    text.append(b"\"")?;
    text.append(name)?;
    text.append(b"\" <board@jam.invalid>")?;
    Ok(())
}

/// Puts the sender of an article behind a text.
pub(crate) fn append_sender(
    alloc: Global,
    text: &mut Bytes,
    fold: &[u8],
    name: &[u8],
) -> Result<(), OutOfMemory>
    ensures { OnOk result (text.new ≡ text.old ++ sender_text fold.now name.now) }
{
    let bytes = quoted(alloc, name)?;
    if has_high(name) {
        return append_encoded_sender(alloc, text, fold, charset_of(name), bytes.as_slice());
    }
    append_quoted_sender(text, bytes.as_slice())
}
