//! The bytes of a record, part by part.
ghost use Rattle.std.specs.Prelude.{◌≡◌, ◌+◌, ◌^◌, ◌<◌, ◌++◌, if◌then◌else◌};
ghost use Rattle.jb_disk.specs.declared.version.Version.TheVariants.{Two};
ghost use Rattle.jb_disk.specs.Files.{file_number};
ghost use Rattle.jb_bytes.specs.Number.{number_bytes};
ghost use Rattle.jb_redo.specs.Record.{record_head, length_bytes};
ghost use Rattle.jb_redo.specs.Changes.{IsWritable, record_size as spelled_record};
ghost use Rattle.jb_journal.specs.Spelling.{head_bytes, spelled_size};

use jb_disk::{Length, PieceHead, Redo};

/// The head of the record of a change with this number, and how many lengths it has.
pub(crate) fn start_code(change: u64, count: u32) -> [u8; 16]
    ensures { result ≡ record_head Two change ++ number_bytes 4 count }
{
    let [a, b, c, d, e, f, g, h] = change.to_le_bytes();
    let [i, j, k, l] = count.to_le_bytes();
    [b'J', b'B', b'J', b'2', a, b, c, d, e, f, g, h, i, j, k, l]
}

/// A number in four bytes.
pub(crate) fn number_code(n: u32) -> [u8; 4]
    ensures { result ≡ number_bytes 4 n }
{
    n.to_le_bytes()
}

/// A place in eight bytes.
pub(crate) fn place_code(n: u64) -> [u8; 8]
    ensures { result ≡ number_bytes 8 n }
{
    n.to_le_bytes()
}

/// A new length.
pub(crate) fn length_code(entry: Length) -> [u8; 12]
    ensures { result ≡ length_bytes Two entry }
{
    let [a, b, c, d, e, f, g, h] = entry.len.to_le_bytes();
    [entry.file.number(), 0, 0, 0, a, b, c, d, e, f, g, h]
}

// The number of a piece's kind: 0 with its bytes, 1 for a copy.
fn kind_code(head: PieceHead) -> u8
    ensures { result ≡ if head.copy then 1 else 0 }
{
    if head.copy { 1 } else { 0 }
}

// The number of the file that a piece is copied from, else 0.
fn source_code(head: PieceHead) -> u8
    ensures { result ≡ if head.copy then file_number head.from else 0 }
{
    if head.copy { head.from.number() } else { 0 }
}

/// The beginning of a piece.
pub(crate) fn head_code(head: PieceHead) -> [u8; 20]
    ensures { result ≡ head_bytes head }
{
    let [a, b, c, d, e, f, g, h] = head.to_at.to_le_bytes();
    let [i, j, k, l, m, n, o, p] = head.len.to_le_bytes();
    let (kind, to, from) = (kind_code(head), head.to.number(), source_code(head));
    [
        kind, to, from, 0, a, b, c, d, e, f, g, h, i, j, k, l, m, n, o, p,
    ]
}

/// How many bytes a piece takes.
pub(crate) fn piece_size(head: PieceHead) -> u64
    requires { spelled_size head < 2 ^ 63 }
    ensures { result ≡ spelled_size head }
{
    if head.copy { 28 } else { 20 + head.len }
}

/// How many bytes the record of a change takes, whatever its number.
pub(crate) fn record_size(redo: &Redo) -> u64
    requires { IsWritable redo.now }
    ensures { result ≡ spelled_record redo.now }
{
    let mut size = 24 + 12 * redo.lengths().len() as u64;
    for k in 0..redo.pieces() {
        size += piece_size(redo.head(k));
    }
    size
}
