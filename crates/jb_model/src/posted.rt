//! What a posted message gets from its area and its number: its MSGID and its attributes.
ghost use Rattle.std.specs.Prelude.{◌≡◌, ◌<◌, ◌≤◌, IfOk};
ghost use Rattle.std.specs.Char.{digit_char};
ghost use Rattle.jb_limits.specs.declared.limits.TheConstants.{LAST_POSTED_NUMBER};
ghost use Rattle.jb_model.specs.Post.{hex_digits, posted_attribute, posted_msgid};

use jb_base::{AreaRules, Bytes, Kind, LOCAL, OutOfMemory, PRIVATE, TYPEECHO, TYPELOCAL};
use std::alloc::Global;

/// A digit of base 16, in lower case.
fn digit(value: u32) -> u8
    requires { value < 16 }
    ensures { result ≡ digit_char value }
{
    if value < 10 {
        b'0' + value as u8
    } else {
        b'a' + (value - 10) as u8
    }
}

/// The eight digits of a serial number.
fn serial_digits(serial: u32) -> [u8; 8]
    ensures { result ≡ hex_digits 8 serial }
{
    [
        digit(serial / 0x1000_0000),
        digit(serial / 0x100_0000 % 16),
        digit(serial / 0x10_0000 % 16),
        digit(serial / 0x1_0000 % 16),
        digit(serial / 0x1000 % 16),
        digit(serial / 0x100 % 16),
        digit(serial / 0x10 % 16),
        digit(serial % 16),
    ]
}

/// The MSGID of the message that is posted under this number: the area's address, a space and a serial of the area's
/// ordinal and the number.
pub fn posted_msgid(alloc: Global, rules: &AreaRules, number: u32) -> Result<Bytes, OutOfMemory>
    requires { number ≤ LAST_POSTED_NUMBER }
    ensures { IfOk result (λ id. id ≡ posted_msgid rules.now number) }
{
    let serial = u32::from(rules.ordinal) * 0x100_0000 + number;
    let mut id = Bytes::copy(alloc, rules.address.as_slice())?;
    id.append(b" ")?;
    id.append(&serial_digits(serial))?;
    Ok(id)
}

/// The attributes of a message that is posted.
pub fn posted_attribute(rules: &AreaRules, private: bool) -> u32
    ensures { result ≡ posted_attribute rules.now private }
{
    let kind = match rules.kind {
        Kind::Local => TYPELOCAL,
        Kind::Echo => TYPEECHO,
    };
    LOCAL + kind + if private { PRIVATE } else { 0 }
}
