//! One piece of bytes more.
ghost use Rattle.std.specs.Prelude.{◌≡◌, ◌+◌, ◌<◌, ◌^◌, ◌++◌, length};
ghost use Rattle.jb_bytes.specs.Number.{number_bytes};
ghost use Rattle.jb_change.specs.Changing.{Puts};
ghost use Rattle.jb_redo.specs.Changes.{KeepsRoom};
ghost use Rattle.jb_redo.specs.Changes.{record_size};
ghost use Rattle.jb_disk.specs.RedoView.{HasRoom, Spends};

use jb_base::put_u32;
use jb_disk::{FileId, Redo};

/// Puts a piece of these bytes behind the others, and answers how many there are then: a number of 32 bits, as the record
/// of a change keeps it.
pub(crate) fn put_piece(redo: &mut Redo, file: FileId, at: u32, bytes: &[u8]) -> u32
    requires room { HasRoom 0 1 (length bytes.now) redo.old }
    requires short { length bytes.now < 2 ^ 32 }
    ensures puts { Puts file at bytes.now redo.old redo.new }
    ensures room { Spends 0 1 (length bytes.now) redo.old redo.new }
    ensures kept { KeepsRoom redo.old redo.new }
    ensures size { record_size redo.new ≡ record_size redo.old + 20 + length bytes.now }
{
    redo.put_bytes(file, at as u64, bytes);
    redo.pieces()
}

/// A number as its four bytes.
pub(crate) fn one_number(value: u32) -> [u8; 4]
    ensures exact { result ≡ number_bytes 4 value }
    ensures fits { value < 2 ^ 32 }
{
    let mut bytes = [0; 4];
    put_u32(&mut bytes, 0, value);
    bytes
}

/// Two numbers, one after another.
pub(crate) fn two_numbers(first: u32, second: u32) -> [u8; 8]
    ensures exact { result ≡ number_bytes 4 first ++ number_bytes 4 second }
    ensures first_fits { first < 2 ^ 32 }
    ensures second_fits { second < 2 ^ 32 }
{
    let mut bytes = [0; 8];
    put_u32(&mut bytes, 0, first);
    put_u32(&mut bytes, 4, second);
    bytes
}

/// Three numbers, one after another.
pub(crate) fn three_numbers(first: u32, second: u32, third: u32) -> [u8; 12]
    ensures exact { result ≡ number_bytes 4 first ++ number_bytes 4 second ++ number_bytes 4 third }
    ensures first_fits { first < 2 ^ 32 }
    ensures second_fits { second < 2 ^ 32 }
    ensures third_fits { third < 2 ^ 32 }
{
    let mut bytes = [0; 12];
    put_u32(&mut bytes, 0, first);
    put_u32(&mut bytes, 4, second);
    put_u32(&mut bytes, 8, third);
    bytes
}
