//! The parts of a line: bytes as they are shown, numbers and columns.
ghost use Rattle.std.specs.Prelude.{◌≡◌, ◌++◌, IsTrue, OnOk, decimal, replicate};
ghost use Rattle.jb_text.specs.Lines.{line_end};
ghost use Rattle.jb_text.specs.Numbers.{left_in, right_in};
ghost use Rattle.jb_text.specs.Shown.{shown, shown_byte};

use itoa::Buffer;
use jb_base::{Bytes, OutOfMemory};

/// As many spaces as most columns want.
const SPACES: [u8; 32] = [b' '; 32];

/// A byte as it is shown: `?` in place of a control character.
pub fn show(byte: u8) -> u8
    ensures { result ≡ shown_byte byte }
{
    if byte < 32 || byte == 127 { b'?' } else { byte }
}

/// Whether no byte is a control character, so that each is shown as it is.
fn are_plain(bytes: &[u8]) -> bool
    ensures { IsTrue result → shown bytes.now ≡ bytes.now }
{
    // No early end: so a compiler looks at many bytes at once.
    let mut any = false;
    for byte in bytes {
        any |= show(*byte) != *byte;
    }
    !any
}

/// Puts bytes behind a text as they are shown.
pub fn append_shown(text: &mut Bytes, bytes: &[u8]) -> Result<(), OutOfMemory>
    ensures { OnOk result (text.new ≡ text.old ++ shown bytes.now) }
{
    if are_plain(bytes) {
        return text.append(bytes);
    }
    for byte in bytes {
        text.append(&[show(*byte)])?;
    }
    Ok(())
}

/// Puts so many spaces behind a text.
pub fn append_spaces(text: &mut Bytes, count: usize) -> Result<(), OutOfMemory>
    ensures { OnOk result (text.new ≡ text.old ++ replicate count 32) }
{
    let mut left = count;
    for _piece in 0..count / SPACES.len() {
        text.append(&SPACES)?;
        left -= SPACES.len();
    }
    text.append(&SPACES[..left])?;
    Ok(())
}

/// Puts the end of a line behind a text.
pub fn append_line_end(text: &mut Bytes) -> Result<(), OutOfMemory>
    ensures { OnOk result (text.new ≡ text.old ++ line_end) }
{
    text.append(b"\r\n")?;
    Ok(())
}

/// Puts the digits of a number behind a text.
pub fn append_number(text: &mut Bytes, number: u64) -> Result<(), OutOfMemory>
    ensures { OnOk result (text.new ≡ text.old ++ decimal number) }
{
    let mut digits = Buffer::new();
    text.append(digits.format(number).as_bytes())?;
    Ok(())
}

/// Puts a number behind a text, right in so many places.
pub fn append_right(text: &mut Bytes, width: usize, number: u64) -> Result<(), OutOfMemory>
    ensures { OnOk result (text.new ≡ text.old ++ right_in width number) }
{
    let mut digits = Buffer::new();
    let shown = digits.format(number).as_bytes();
    append_spaces(text, width.saturating_sub(shown.len()))?;
    text.append(shown)?;
    Ok(())
}

/// Puts bytes behind a text as they are shown, left in so many places.
pub fn append_left(text: &mut Bytes, width: usize, bytes: &[u8]) -> Result<(), OutOfMemory>
    ensures { OnOk result (text.new ≡ text.old ++ left_in width (shown bytes.now)) }
{
    append_shown(text, bytes)?;
    append_spaces(text, width.saturating_sub(bytes.len()))?;
    Ok(())
}
