//! Numbers as clients write them.
ghost use Rattle.std.specs.Prelude.{◌≡◌, IsTrue, min};
ghost use Rattle.std.specs.Char.{is_ascii_digit};
ghost use Rattle.std.specs.List.{list_all};
ghost use Rattle.std.specs.Str.Parse.{digits_value};
ghost use Rattle.jb_news.specs.Numbers.{article_number, last_of, plain_number, range_of, span};

use crate::words::around;
use itoa::Buffer;
use jb_text::number_up_to;

/// The greatest number of an article (RFC 3977 section 6).
pub const MOST_ARTICLE: u32 = 2_147_483_647;

/// Article numbers from one to another: none where the last is below the first.
#[derive(Clone, Copy)]
pub struct NumberRange {
    pub first: u32,
    pub last: u32,
}

/// Whether these are digits.
pub(crate) fn all_digits(text: &[u8]) -> bool
    ensures { result ≡ list_all is_ascii_digit text.now }
{
    text.iter().all(|byte| byte.is_ascii_digit())
}

/// The number that digits write, and 2,147,483,648 for each that is greater.
fn capped_value(digits: &[u8]) -> u32
    requires { IsTrue (list_all is_ascii_digit digits.now) }
    ensures { result ≡ min (digits_value 10 digits.now) 2_147_483_648 }
{
    let mut value: u64 = 0;
    for digit in digits {
        value = (value * 10 + u64::from(*digit - b'0')).min(2_147_483_648);
    }
    value as u32
}

/// The number of an article that a word writes; one that is too large is 2,147,483,648.
pub(crate) fn article_number(word: &[u8]) -> Option<u32>
    ensures { result ≡ article_number word.now }
{
    if 1 <= word.len() && all_digits(word) {
        Some(capped_value(word))
    } else {
        None
    }
}

/// The number that a word is in decimal, without zeros before it.
pub(crate) fn plain_number(word: &[u8]) -> Option<u32>
    ensures { result ≡ plain_number word.now }
{
    let Some(number) = number_up_to(u32::MAX, word) else {
        return None;
    };
    let mut digits = Buffer::new();
    if digits.format(number).as_bytes() == word {
        Some(number)
    } else {
        None
    }
}

/// The numbers from one to another, none where one is too large.
pub(crate) fn span(first: u32, last: u32) -> NumberRange
    ensures { result ≡ span first last }
{
    if first <= MOST_ARTICLE && last <= MOST_ARTICLE {
        NumberRange { first, last }
    } else {
        NumberRange { first: 1, last: 0 }
    }
}

/// The range from a number to what stands behind the dash.
fn last_of(first: u32, behind: &[u8]) -> Option<NumberRange>
    ensures { result ≡ last_of first behind.now }
{
    if behind.is_empty() {
        return Some(span(first, MOST_ARTICLE));
    }
    match article_number(behind) {
        Some(last) => Some(span(first, last)),
        None => None,
    }
}

/// The range that a word is: `n`, `n-` or `n-m`.
pub(crate) fn range_of(word: &[u8]) -> Option<NumberRange>
    ensures { result ≡ range_of word.now }
{
    let parts = around(b'-', word);
    let Some(first) = article_number(parts.front) else {
        return None;
    };
    if parts.found {
        last_of(first, parts.behind)
    } else {
        Some(span(first, first))
    }
}
