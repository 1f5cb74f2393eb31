//! Why a settings file is refused, in words for whoever wrote it.
ghost use Rattle.std.specs.Prelude.{◌≡◌};

use crate::{AreaKey, BoardKey, ConfError, Field, UserKey};
use jb_base::OutOfMemory;
use std::alloc::Global;

/// The values that a field may have, as docs/FORMATS.md has them.
fn range_of(field: Field) -> &'static str {
    match field {
        Field::Board(BoardKey::Name) | Field::User(_, UserKey::Name) => "1 to 36 printable bytes",
        Field::Board(BoardKey::Address) =>
            "1 to 24 bytes from 33 to 126, none of them a quote (34)",
        Field::Board(BoardKey::Port) => "0 to 65,535",
        Field::Board(BoardKey::Nodes) => "1 to 32",
        Field::Board(BoardKey::Offset) => "-840 to 840",
        Field::Board(BoardKey::PackMinutes) => "0 to 10,080",
        Field::Board(BoardKey::NewsPort) => "0 to 65,535; only where nodes is at most 31",
        Field::Board(BoardKey::NewsLevel) => "0 to 255",
        Field::Board(BoardKey::Areas) => "1 to 255 tables",
        Field::Board(BoardKey::Users) => "1 to 1,024 tables",
        Field::Area(_, AreaKey::Name) => "1 to 24 printable bytes",
        Field::Area(_, AreaKey::Dir) => "1 to 1,024 bytes",
        Field::Area(_, AreaKey::Base) => "1 to 200 bytes",
        Field::Area(_, AreaKey::Kind) => "local or echo, in these letters",
        Field::Area(_, AreaKey::Read | AreaKey::Post | AreaKey::Sysop) => "0 to 255",
        Field::Area(_, AreaKey::Slots) => {
            "1 to 1,000,000; with those of the areas before at most 4,200,000"
        }
        Field::User(_, UserKey::Id) => "1 to 65,535",
        Field::User(_, UserKey::Level) => "0 to 255",
        Field::User(_, UserKey::Salt) => "0 to 64 bytes",
        Field::User(_, UserKey::Digest) => "64 hexadecimal digits",
    }
}

/// Where and why these bytes are no document; nothing where they are one after all, or memory is wanting to look.
fn mistake_in(alloc: Global, bytes: &[u8]) -> Result<String, OutOfMemory> {
    let Err(mistake) = toml::table_from_slice(alloc, bytes) else {
        return Ok(String::new(alloc));
    };
    let told = format!(in alloc; "{mistake}")?;
    let head = told.as_str().lines().next().unwrap_or("");
    let place = head.strip_prefix("TOML parse error at ").unwrap_or(head);
    let message = mistake.message();
    let line = format!(in alloc; ": {place}: {message}")?;
    Ok(line)
}

/// What the refusal of these bytes means: where they are no document with the place and the reader's words, where a value is out of its
/// range with the range.
pub fn explanation(alloc: Global, bytes: &[u8], error: ConfError) -> Result<String, OutOfMemory> {
    let line = match error {
        ConfError::NotToml => {
            let mistake = mistake_in(alloc, bytes)?;
            format!(in alloc; "{error}{mistake}")?
        }
        ConfError::OutOfRange { field } => {
            let range = range_of(field);
            format!(in alloc; "{error}, which is {range}")?
        }
        _ => format!(in alloc; "{error}")?,
    };
    Ok(line)
}
