//! How a record is laid out in each version of the journal.
ghost use Rattle.std.specs.Prelude.{◌≡◌, ◌<◌};
ghost use Rattle.jb_disk.specs.Files.{file_number};
ghost use Rattle.jb_redo.specs.Record.{width_of, record_mark, record_end};
ghost use Rattle.jb_redo.specs.Rules.{most_of};
ghost use Rattle.jb_redo.specs.Walk.{head_size, front_size};

use jb_disk::{FileId, Version};
use jb_limits::{
    FIRST_HEADERS_CEILING, FIRST_INDEX_CEILING, FIRST_TEXTS_CEILING, HEADERS_CEILING,
    INDEX_CEILING, LASTREAD_CEILING, TEXTS_CEILING,
};

/// The mark with which a record begins.
pub(crate) fn start_mark(version: Version) -> [u8; 4]
    ensures { result ≡ record_mark version }
{
    match version {
        Version::One => *b"JBJ1",
        Version::Two => *b"JBJ2",
    }
}

/// The mark with which it ends.
pub(crate) fn end_mark(version: Version) -> [u8; 4]
    ensures { result ≡ record_end version }
{
    match version {
        Version::One => *b"JBJE",
        Version::Two => *b"JBJF",
    }
}

/// How many bytes a place or a length takes.
pub(crate) fn width(version: Version) -> usize
    ensures { result ≡ width_of version }
{
    match version {
        Version::One => 4,
        Version::Two => 8,
    }
}

/// How many bytes its head takes.
pub(crate) fn head_bytes(version: Version) -> u64
    ensures { result ≡ head_size version }
{
    match version {
        Version::One => 4,
        Version::Two => 12,
    }
}

/// How many bytes stand before what a piece brings with it.
pub(crate) fn front_bytes(version: Version) -> usize
    ensures { result ≡ front_size version }
{
    4 + 2 * width(version)
}

/// The greatest length that a record gives a file of the base.
pub(crate) fn most(version: Version, file: FileId) -> u64
    requires { file_number file < 4 }
    ensures { result ≡ most_of version file }
{
    match (version, file) {
        (Version::One, FileId::Jhr) => FIRST_HEADERS_CEILING,
        (Version::Two, FileId::Jhr) => HEADERS_CEILING,
        (Version::One, FileId::Jdt) => FIRST_TEXTS_CEILING,
        (Version::Two, FileId::Jdt) => TEXTS_CEILING,
        (Version::One, FileId::Jdx) => FIRST_INDEX_CEILING,
        (Version::Two, FileId::Jdx) => INDEX_CEILING,
        (_, FileId::Jlr) => LASTREAD_CEILING,
        (_, FileId::Jnl | FileId::Ndt) => unreachable!(),
    }
}
