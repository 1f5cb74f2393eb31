//! The parts of an answer: bytes as they are shown, numbers and names.
ghost use Rattle.std.specs.Prelude.{◌≡◌, ◌++◌, OnOk, decimal};
ghost use Rattle.jb_text.specs.Shown.{shown, shown_byte};
ghost use Rattle.jb_news.specs.Names.{group_text, message_id};

use itoa::Buffer;
use jb_base::{Bytes, OutOfMemory};

/// A byte as it is shown: `?` in place of a control character.
pub(crate) fn show(byte: u8) -> u8
    ensures { result ≡ shown_byte byte }
{
    if byte < 32 || byte == 127 { b'?' } else { byte }
}

/// Puts bytes behind a text as they are shown.
pub(crate) fn append_shown(text: &mut Bytes, bytes: &[u8]) -> Result<(), OutOfMemory>
    ensures { OnOk result (text.new ≡ text.old ++ shown bytes.now) }
{
    for byte in bytes {
        text.append(&[show(*byte)])?;
    }
    Ok(())
}

/// Puts the digits of a number behind a text.
pub(crate) fn append_number(text: &mut Bytes, number: u32) -> Result<(), OutOfMemory>
    ensures { OnOk result (text.new ≡ text.old ++ decimal number) }
{
    let mut digits = Buffer::new();
    text.append(digits.format(number).as_bytes())
}

/// Puts the name of a group behind a text.
pub fn append_group(text: &mut Bytes, area: u32) -> Result<(), OutOfMemory>
    ensures { OnOk result (text.new ≡ text.old ++ group_text area) }
{
    text.append(b"jam.")?;
    append_number(text, area)
}

/// Puts the message id of an article behind a text.
pub(crate) fn append_id(text: &mut Bytes, area: u32, number: u32) -> Result<(), OutOfMemory>
    ensures { OnOk result (text.new ≡ text.old ++ message_id area number) }
{
    text.append(b"<")?;
    append_number(text, area)?;
    text.append(b".")?;
    append_number(text, number)?;
    text.append(b"@jam.invalid>")
}
