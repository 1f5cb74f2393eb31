//! Numbers that users write in digits.
ghost use Rattle.std.specs.Prelude.{◌≡◌, ◌≤◌, IfSome, IsTrue, length};
ghost use Rattle.std.specs.Char.{is_ascii_digit};
ghost use Rattle.std.specs.List.{list_all};
ghost use Rattle.std.specs.Str.Parse.{digits_value};
ghost use Rattle.jb_text.specs.Digits.{are_digits, number_up_to};

/// Digits of a number.
const MOST_DIGITS: usize = 10;

/// The number that these digits write, of which there are not too many to be added up.
fn value_of(digits: &[u8]) -> u64
    requires few { length digits.now ≤ 10 }
    requires digits { IsTrue (list_all is_ascii_digit digits.now) }
    ensures { result ≡ digits_value 10 digits.now }
{
    let mut value: u64 = 0;
    for digit in digits {
        value = value * 10 + u64::from(*digit - b'0');
    }
    value
}

/// Whether these are digits.
fn all_digits(text: &[u8]) -> bool
    ensures { result ≡ list_all is_ascii_digit text.now }
{
    text.iter().all(|byte| byte.is_ascii_digit())
}

/// Whether these are digits, one at least and not too many.
fn are_digits(text: &[u8]) -> bool
    ensures { result ≡ are_digits text.now }
{
    1 <= text.len() && text.len() <= MOST_DIGITS && all_digits(text)
}

/// The number that a text writes: one to ten digits, at most this.
pub fn number_up_to(most: u32, text: &[u8]) -> Option<u32>
    ensures found { result ≡ number_up_to most text.now }
    ensures most { IfSome result (λ number. number ≤ most) }
{
    if are_digits(text) {
        let value = value_of(text);
        if value <= u64::from(most) {
            return Some(value as u32);
        }
    }
    None
}
