//! The address at the beginning of the text.
ghost use Rattle.std.specs.Prelude.{◌≡◌, ◌<◌, ◌≤◌, ◌==◌, [], ◌∷◌, ◌++◌, IfErr, IfOk, IfSome, MatchOption, Some, drop, length, position, slice_get, take, unwrap_or};
ghost use Rattle.jb_msgid.specs.Address.{HasAddress, IsQuoted, quotes_doubled};
ghost use Rattle.jb_msgid.specs.Answer.{IsAddressError};
ghost use Rattle.jb_msgid.specs.Unquoting.{IsQuoteEnd, IsUnquoting};

use crate::MsgIdError;
use jb_bytes::{Bytes, OutOfMemory};
use std::alloc::Global;

/// An address, and where in the text the bytes behind it begin.
#[derive(Drop)]
pub struct Address {
    pub bytes: Bytes,
    pub end: usize,
}

/// The address with which the text begins.
pub fn address_of(alloc: Global, text: &[u8]) -> Result<Address, MsgIdError>
    ensures ok { IfOk result (λ address. (address.end ≤ length text.now)
        × HasAddress text.now address.bytes (drop address.end text.now)) }
    ensures err { IfErr result (IsAddressError text.now) }
{
    match text.first() {
        None | Some(b' ') => Err(MsgIdError::EmptyAddress),
        Some(b'"') => quoted_address(alloc, text),
        Some(_) => Ok(plain_address(alloc, text)?),
    }
}

/// The address up to the first space or the end.
fn plain_address(alloc: Global, text: &[u8]) -> Result<Address, OutOfMemory>
    ensures end { IfOk result (λ address.
        address.end ≡ unwrap_or (position (λ byte. byte == 32) text.now) (length text.now)) }
    ensures bytes { IfOk result (λ address. address.bytes ≡ take address.end text.now) }
{
    let end = first_space(text).unwrap_or(text.len());
    let bytes = Bytes::copy(alloc, &text[..end])?;
    Ok(Address { bytes, end })
}

fn first_space(text: &[u8]) -> Option<usize>
    ensures { result ≡ position (λ byte. byte == 32) text.now }
{
    text.iter().position(|byte| *byte == b' ')
}

/// The address between quotes, of which the first begins the text.
fn quoted_address(alloc: Global, text: &[u8]) -> Result<Address, MsgIdError>
    requires { slice_get text.now 0 ≡ Some 34 }
    ensures ok { IfOk result (λ address. (address.end ≤ length text.now)
        × IsQuoted text.now address.bytes (drop address.end text.now)
        × (0 < length address.bytes)) }
    ensures err { IfErr result (IsAddressError text.now) }
{
    match unquoted(alloc, &text[1..])? {
        None => Err(MsgIdError::BadQuote {
            at: text.len() as u64,
        }),
        Some(inner) if inner.bytes.is_empty() => Err(MsgIdError::EmptyAddress),
        Some(inner) => Ok(Address {
            bytes: inner.bytes,
            end: inner.end + 1,
        }),
    }
}

/// The bytes up to the quote that closes them, each quote among them once, and where the bytes behind that quote begin.
fn unquoted(alloc: Global, text: &[u8]) -> Result<Option<Address>, OutOfMemory>
    ensures { IfOk result (IsUnquoting text.now) }
{
    let mut bytes = Bytes::new(alloc);
    let mut rest = text;
    while let Some((byte, behind)) = next_inner(rest) {
        bytes.append(&[byte])?;
        rest = behind;
    }
    if rest.is_empty() {
        return Ok(None);
    }
    let end = text.len() - rest.len() + 1;
    Ok(Some(Address { bytes, end }))
}

/// The next byte between quotes and the bytes behind it, where neither the closing quote nor the end comes first.
fn next_inner(text: &[u8]) -> Option<(u8, &[u8])>
    ensures inner { MatchOption result (IsQuoteEnd text.now) (λ next.
        text.now ≡ quotes_doubled (next.0 ∷ []) ++ next.1.now) }
    ensures shorter { IfSome result (λ next. length next.1.now < length text.now) }
{
    let (byte, behind) = text.split_first()?;
    if *byte != b'"' {
        return Some((*byte, behind));
    }
    let (second, more) = behind.split_first()?;
    if *second != b'"' {
        return None;
    }
    Some((b'"', more))
}
