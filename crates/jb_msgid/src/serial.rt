//! The serial number behind the address.
ghost use Rattle.std.specs.Prelude.{◌≡◌, ◌<◌, ◌≤◌, ◌∷◌, IfNone, IfSome, MatchResult, length, slice_index};
ghost use Rattle.std.specs.Char.{digit_char, digit_value};
ghost use Rattle.jb_msgid.specs.Serial.{IsFirstWrong, IsSerial, last_digits};

/// The serial number of a space and eight digits, or the first place at which something else stands.
pub fn serial_of(text: &[u8]) -> Result<u32, usize>
    ensures { MatchResult result (IsSerial text.now) (IsFirstWrong text.now) }
{
    let Some((byte, digits)) = text.split_first() else {
        return Err(0);
    };
    if *byte != b' ' {
        return Err(0);
    }
    number_of(digits)
}

/// The number of eight digits, or the first place at which something else stands, counted from the space before them.
fn number_of(digits: &[u8]) -> Result<u32, usize>
    ensures { MatchResult result (IsSerial (32 ∷ digits.now)) (IsFirstWrong (32 ∷ digits.now)) }
{
    let mut number = 0;
    for place in 0..8 {
        let Some(digit) = digit_at(digits, place) else {
            return Err(place + 1);
        };
        number = number * 16 + digit;
    }
    if digits.len() > 8 {
        return Err(9);
    }
    Ok(number)
}

/// The value of the digit at a place, where there is one.
fn digit_at(bytes: &[u8], place: usize) -> Option<u32>
    ensures none { IfNone result (place < length bytes.now → 16 ≤ digit_value (slice_index bytes.now place)) }
    ensures within { IfSome result (λ digit. (place < length bytes.now) × (digit < 16)) }
    ensures value { IfSome result (λ digit. digit ≡ digit_value (slice_index bytes.now place)) }
{
    match bytes.get(place) {
        Some(byte) => char::from(*byte).to_digit(16),
        None => None,
    }
}

/// The eight digits of a serial number.
pub fn serial_digits(serial: u32) -> [u8; 8]
    ensures { result ≡ last_digits 8 serial }
{
    [
        digit(serial / 0x1000_0000),
        digit(serial / 0x100_0000 % 16),
        digit(serial / 0x10_0000 % 16),
        digit(serial / 0x1_0000 % 16),
        digit(serial / 0x1000 % 16),
        digit(serial / 0x100 % 16),
        digit(serial / 0x10 % 16),
        digit(serial % 16),
    ]
}

fn digit(value: u32) -> u8
    requires { value < 16 }
    ensures { result ≡ digit_char value }
{
    if value < 10 {
        b'0' + value as u8
    } else {
        b'a' + (value - 10) as u8
    }
}
