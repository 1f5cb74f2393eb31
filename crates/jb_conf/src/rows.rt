//! The sorts of fields: each is there where it has to be, is of its kind, and lies in its range.
ghost use Rattle.std.specs.Prelude.{◌≡◌, ◌≤◌, [], true, false, pos, negsuc, codes, Some, IfOk, MatchOption};
ghost use Rattle.std.specs.List.{list_all};
ghost use Rattle.std.specs.Option.{ForSome};
ghost use Rattle.toml.specs.View.{table_view};
ghost use Rattle.jb_conf.specs.Faults.{ValueOrFault, text_at, whole_at};
ghost use Rattle.jb_conf.specs.Ranges.{is_address, is_address_byte, is_between, is_printable, is_printed, is_sized};
ghost use Rattle.jb_conf.specs.Rows.{address_fault, area_kind_fault, digest_fault, digest_of, is_area_kind, kind_of, number_at, number_fault, printable_fault, short_fault, sized_fault, whole_fault};

use crate::document::{found, required_text, text_or, within};
use crate::{ConfError, Field, UserKey};
use hex::FromHex;
use jb_base::Kind;
use toml::Table;

fn is_sized(text: &str, least: usize, most: usize) -> bool
    ensures { result ≡ is_sized least most text.now }
{
    least <= text.len() && text.len() <= most
}

fn is_printed(byte: u8) -> bool
    ensures { result ≡ is_printed byte }
{
    32 <= byte && byte <= 126
}

fn is_address_byte(byte: u8) -> bool
    ensures { result ≡ is_address_byte byte }
{
    33 <= byte && byte <= 126 && byte != b'"'
}

fn all_printed(text: &[u8]) -> bool
    ensures { result ≡ list_all is_printed text.now }
{
    text.iter().all(|byte| is_printed(*byte))
}

fn all_in_address(text: &[u8]) -> bool
    ensures { result ≡ list_all is_address_byte text.now }
{
    text.iter().all(|byte| is_address_byte(*byte))
}

fn is_printable(text: &str, most: usize) -> bool
    ensures { result ≡ is_printable most text.now }
{
    is_sized(text, 1, most) && all_printed(text.as_bytes())
}

fn is_address(text: &str, most: usize) -> bool
    ensures { result ≡ is_address most text.now }
{
    is_sized(text, 1, most) && all_in_address(text.as_bytes())
}

/// A printable text of 1 to so many bytes.
pub fn printable(table: &Table, field: Field, most: usize) -> Result<&str, ConfError>
    ensures { ValueOrFault (printable_fault field most (table_view table.now))
        (λ text. text.now ≡ text_at field [] (table_view table.now)) result }
{
    let text = required_text(table, field)?;
    within(is_printable(text, most), field)?;
    Ok(text)
}

/// An address of 1 to so many bytes.
pub fn address(table: &Table, field: Field, most: usize) -> Result<&str, ConfError>
    ensures { ValueOrFault (address_fault field most (table_view table.now))
        (λ text. text.now ≡ text_at field [] (table_view table.now)) result }
{
    let text = required_text(table, field)?;
    within(is_address(text, most), field)?;
    Ok(text)
}

/// A text of 1 to so many bytes.
pub fn sized(table: &Table, field: Field, most: usize) -> Result<&str, ConfError>
    ensures { ValueOrFault (sized_fault field most (table_view table.now))
        (λ text. text.now ≡ text_at field [] (table_view table.now)) result }
{
    let text = required_text(table, field)?;
    within(is_sized(text, 1, most), field)?;
    Ok(text)
}

/// A text of at most so many bytes, the empty one where it is absent.
pub fn short(table: &Table, field: Field, most: usize) -> Result<&str, ConfError>
    ensures { ValueOrFault (short_fault field most (table_view table.now))
        (λ text. text.now ≡ text_at field [] (table_view table.now)) result }
{
    let text = text_or(table, field, "")?;
    within(is_sized(text, 0, most), field)?;
    Ok(text)
}

fn is_kind(text: &str) -> bool
    ensures { result ≡ is_area_kind text.now }
{
    text == "local" || text == "echo"
}

fn kind_of(text: &str) -> Kind
    ensures { result ≡ kind_of text.now }
{
    if text == "echo" {
        Kind::Echo
    } else {
        Kind::Local
    }
}

/// The kind of an area, local where it is absent.
pub fn area_kind(table: &Table, field: Field) -> Result<Kind, ConfError>
    ensures { ValueOrFault (area_kind_fault field (table_view table.now))
        (λ kind. kind ≡ kind_of (text_at field (codes "local") (table_view table.now))) result }
{
    let text = text_or(table, field, "local")?;
    within(is_kind(text), field)?;
    Ok(kind_of(text))
}

/// The number without a sign, where it lies in this range.
fn number_between(number: i64, least: u32, most: u32) -> Option<u32>
    ensures { MatchOption result (is_between (pos least) (pos most) number ≡ false)
        (λ n. (is_between (pos least) (pos most) number ≡ true) × (pos n ≡ number)) }
{
    if i64::from(least) <= number && number <= i64::from(most) {
        Some(number as u32)
    } else {
        None
    }
}

/// The number as one of 32 bits, where it lies in this range.
fn minutes_of(number: i64) -> Option<i32>
    ensures { MatchOption result (is_between (negsuc 839) (pos 840) number ≡ false)
        (λ n. (is_between (negsuc 839) (pos 840) number ≡ true) × (n ≡ number)) }
{
    if -840 <= number && number <= 840 {
        Some(number as i32)
    } else {
        None
    }
}

/// A whole number in this range, or the one that stands for it where it is absent.
pub fn number(
    table: &Table,
    field: Field,
    absent: Option<u32>,
    least: u32,
    most: u32,
) -> Result<u32, ConfError>
    requires { ForSome absent (λ n. (least ≤ n) × (n ≤ most)) }
    ensures row { ValueOrFault (number_fault field absent least most (table_view table.now))
        (λ n. n ≡ number_at field absent (table_view table.now)) result }
    ensures in_range { IfOk result (λ n. (least ≤ n) × (n ≤ most)) }
{
    let Some(value) = found(table, field) else {
        return match absent {
            Some(number) => Ok(number),
            None => Err(ConfError::Missing { field }),
        };
    };
    let Some(whole) = value.as_integer() else {
        return Err(ConfError::WrongKind { field });
    };
    match number_between(whole, least, most) {
        Some(number) => Ok(number),
        None => Err(ConfError::OutOfRange { field }),
    }
}

/// A level, or the one that stands for it where it is absent.
pub fn level(table: &Table, field: Field, absent: u8) -> Result<u8, ConfError>
    ensures { ValueOrFault (number_fault field (Some absent) 0 255 (table_view table.now))
        (λ n. n ≡ number_at field (Some absent) (table_view table.now)) result }
{
    let level = number(table, field, Some(u32::from(absent)), 0, 255)?;
    Ok(level as u8)
}

/// Minutes from -840 to 840, 0 where they are absent.
pub fn minutes(table: &Table, field: Field) -> Result<i32, ConfError>
    ensures { ValueOrFault (whole_fault field false (pos 0) (negsuc 839) (pos 840) (table_view table.now))
        (λ n. n ≡ whole_at field (pos 0) (table_view table.now)) result }
{
    let Some(value) = found(table, field) else {
        return Ok(0);
    };
    let Some(whole) = value.as_integer() else {
        return Err(ConfError::WrongKind { field });
    };
    match minutes_of(whole) {
        Some(minutes) => Ok(minutes),
        None => Err(ConfError::OutOfRange { field }),
    }
}

/// The digest of the user at this place.
pub fn digest(table: &Table, user: u32) -> Result<[u8; 32], ConfError>
    ensures { ValueOrFault (digest_fault user (table_view table.now))
        (λ bytes. bytes ≡ digest_of (text_at (Field.User user UserKey.Digest) []
        (table_view table.now))) result }
{
    let text = required_text(table, Field::User(user, UserKey::Digest))?;
    match <[u8; 32] as FromHex>::from_hex(text) {
        Ok(bytes) => Ok(bytes),
        Err(_) => Err(ConfError::BadDigest { user }),
    }
}
