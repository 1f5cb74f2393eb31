//! The text of a MSGID, written.
ghost use Rattle.std.specs.Prelude.{◌≡◌, ◌<◌, [], ◌∷◌, ◌++◌, IfOk, OnOk, length};
ghost use Rattle.jb_msgid.specs.Address.{quotes_doubled};
ghost use Rattle.jb_msgid.specs.Text.{IsMsgId, address_text, msgid_text, wants_quotes};

use crate::MsgId;
use crate::serial::serial_digits;
use jb_bytes::{Bytes, OutOfMemory};
use std::alloc::Global;

/// The one usual text of the value: an address with a space or a quote between quotes, any other plain, and the digits in
/// lower case. [`parse`](crate::parse) reads it as the value.
pub fn print(alloc: Global, value: &MsgId) -> Result<Bytes, OutOfMemory>
    requires { 0 < length value.now.address }
    ensures exact { IfOk result (λ text. text ≡ msgid_text value.now) }
    ensures reads { IfOk result (λ text. IsMsgId text value.now) }
{
    let mut text = Bytes::new(alloc);
    append_address(&mut text, value.address.as_slice())?;
    text.append(b" ")?;
    text.append(&serial_digits(value.serial))?;
    Ok(text)
}

fn append_address(text: &mut Bytes, address: &[u8]) -> Result<(), OutOfMemory>
    ensures { OnOk result (text.new ≡ text.old ++ address_text address.now) }
{
    if !is_quoted(address) {
        return text.append(address);
    }
    text.append(b"\"")?;
    append_doubled(text, address)?;
    text.append(b"\"")
}

/// Whether an address is written between quotes.
fn is_quoted(address: &[u8]) -> bool
    ensures { result ≡ wants_quotes address.now }
{
    address.iter().any(|byte| *byte == b' ' || *byte == b'"')
}

/// Appends the bytes, each quote twice.
fn append_doubled(text: &mut Bytes, bytes: &[u8]) -> Result<(), OutOfMemory>
    ensures { OnOk result (text.new ≡ text.old ++ quotes_doubled bytes.now) }
{
    for byte in bytes {
        append_byte(text, *byte)?;
    }
    Ok(())
}

fn append_byte(text: &mut Bytes, byte: u8) -> Result<(), OutOfMemory>
    ensures { OnOk result (text.new ≡ text.old ++ quotes_doubled (byte ∷ [])) }
{
    if byte == b'"' {
        return text.append(b"\"\"");
    }
    text.append(&[byte])
}
