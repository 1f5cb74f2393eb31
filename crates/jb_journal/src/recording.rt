//! Stage 1: the record is written behind the head of the journal.
ghost use Rattle.std.specs.Prelude.{◌≡◌, ◌+◌, ◌*◌, ◌<◌, ◌≤◌, ◌^◌, [], ◌∷◌, length, OnOk};
ghost use Rattle.std.specs.List.{flat_map};
ghost use Rattle.std.specs.Option.{ForSome, option_map};
ghost use Rattle.jb_disk.specs.declared.file.FileId.TheVariants.{Jnl};
ghost use Rattle.jb_disk.specs.Device.{FailsBy};
ghost use Rattle.jb_disk.specs.Files.{Files, written};
ghost use Rattle.jb_disk.specs.Runs.{LeavesNow, Keeps};
ghost use Rattle.jb_disk.specs.declared.version.Version.TheVariants.{Two};
ghost use Rattle.jb_redo.specs.Record.{length_bytes, piece_bytes, record_bytes};
ghost use Rattle.jb_journal.specs.Coming.{ComeBy, journal_length};
ghost use Rattle.jb_redo.specs.Changes.{IsWritable, record_size as spelled_record};
ghost use Rattle.jb_journal.specs.Spelling.{nth_piece, tail_bytes, record_front, back_bytes};
ghost use Rattle.jb_journal.specs.Stages.{KeepsHead, with_record};
ghost use Rattle.jb_journal.specs.Pending.{told_with, IsBound, PutsBytes};
ghost use Rattle.jb_journal.specs.Writing.{Reaches};

use crate::gathering::Gathering;
use crate::spelling::{
    head_code, length_code, number_code, piece_size, place_code, record_size, start_code,
};
use jb_disk::{Disk, DiskFailed, FileId, Length, Redo};

// Bytes behind the head of the journal.
fn put<D: Disk>(
    disk: &mut D,
    gathering: &mut Gathering,
    at: u64,
    bytes: &[u8],
) -> Result<(), DiskFailed>
    requires place { 16 ≤ at }
    requires fits { at + length bytes.now < 2 ^ 63 }
    requires bound { IsBound gathering.old (D.device disk.old).contents }
    requires room { Reaches (told_with gathering.old (D.device disk.old).contents) Jnl (at + length bytes.now) }
    ensures { PutsBytes at bytes.now gathering.old (D.device disk.old) gathering.new (D.device disk.new) result }
{
    gathering.put(disk, FileId::Jnl, at, bytes)
}

// The new lengths, one behind another.
fn put_lengths<D: Disk>(
    disk: &mut D,
    gathering: &mut Gathering,
    at: u64,
    lengths: &[Length],
) -> Result<(), DiskFailed>
    requires place { 16 ≤ at }
    requires fits { at + 12 * length lengths.now < 2 ^ 63 }
    requires bound { IsBound gathering.old (D.device disk.old).contents }
    requires room { Reaches (told_with gathering.old (D.device disk.old).contents) Jnl
        (at + 12 * length lengths.now) }
    ensures { PutsBytes at (flat_map (length_bytes Two) lengths.now) gathering.old (D.device disk.old)
        gathering.new (D.device disk.new) result }
{
    let mut place = at;
    for entry in lengths {
        put(disk, gathering, place, &length_code(*entry))?;
        place += 12;
    }
    Ok(())
}

// What stands behind the head of a piece.
fn put_tail<D: Disk>(
    disk: &mut D,
    gathering: &mut Gathering,
    at: u64,
    redo: &Redo,
    k: u32,
) -> Result<(), DiskFailed>
    requires place { 16 ≤ at }
    requires within { k < length redo.now.pieces }
    requires fits { at + length (tail_bytes (nth_piece redo.now.pieces k)) < 2 ^ 63 }
    requires bound { IsBound gathering.old (D.device disk.old).contents }
    requires room { Reaches (told_with gathering.old (D.device disk.old).contents) Jnl
        (at + length (tail_bytes (nth_piece redo.now.pieces k))) }
    ensures { PutsBytes at (tail_bytes (nth_piece redo.now.pieces k)) gathering.old (D.device disk.old)
        gathering.new (D.device disk.new) result }
{
    let head = redo.head(k);
    if head.copy {
        put(disk, gathering, at, &place_code(head.from_at))
    } else {
        put(disk, gathering, at, redo.bytes(k))
    }
}

// One piece.
fn put_piece<D: Disk>(
    disk: &mut D,
    gathering: &mut Gathering,
    at: u64,
    redo: &Redo,
    k: u32,
) -> Result<(), DiskFailed>
    requires place { 16 ≤ at }
    requires within { k < length redo.now.pieces }
    requires fits { at + length (piece_bytes Two (nth_piece redo.now.pieces k)) < 2 ^ 63 }
    requires bound { IsBound gathering.old (D.device disk.old).contents }
    requires room { Reaches (told_with gathering.old (D.device disk.old).contents) Jnl
        (at + length (piece_bytes Two (nth_piece redo.now.pieces k))) }
    ensures { PutsBytes at (piece_bytes Two (nth_piece redo.now.pieces k)) gathering.old (D.device disk.old)
        gathering.new (D.device disk.new) result }
{
    put(disk, gathering, at, &head_code(redo.head(k)))?;
    put_tail(disk, gathering, at + 20, redo, k)
}

// The pieces, one behind another.
fn put_pieces<D: Disk>(
    disk: &mut D,
    gathering: &mut Gathering,
    at: u64,
    redo: &Redo,
) -> Result<(), DiskFailed>
    requires place { 16 ≤ at }
    requires fits { at + length (flat_map (piece_bytes Two) redo.now.pieces) < 2 ^ 63 }
    requires bound { IsBound gathering.old (D.device disk.old).contents }
    requires room { Reaches (told_with gathering.old (D.device disk.old).contents) Jnl
        (at + length (flat_map (piece_bytes Two) redo.now.pieces)) }
    ensures { PutsBytes at (flat_map (piece_bytes Two) redo.now.pieces) gathering.old (D.device disk.old)
        gathering.new (D.device disk.new) result }
{
    let mut place = at;
    for k in 0..redo.pieces() {
        put_piece(disk, gathering, place, redo, k)?;
        place += piece_size(redo.head(k));
    }
    Ok(())
}

// The record up to its first piece.
fn put_front<D: Disk>(
    disk: &mut D,
    gathering: &mut Gathering,
    change: u64,
    lengths: &[Length],
    pieces: u32,
) -> Result<(), DiskFailed>
    requires few { length lengths.now ≤ 4 }
    requires bound { IsBound gathering.old (D.device disk.old).contents }
    requires room { Reaches (told_with gathering.old (D.device disk.old).contents) Jnl
        (36 + 12 * length lengths.now) }
    ensures { PutsBytes 16 (record_front change lengths.now pieces) gathering.old (D.device disk.old)
        gathering.new (D.device disk.new) result }
{
    put(
        disk,
        gathering,
        16,
        &start_code(change, lengths.len() as u32),
    )?;
    put_lengths(disk, gathering, 32, lengths)?;
    put(
        disk,
        gathering,
        32 + 12 * lengths.len() as u64,
        &number_code(pieces),
    )
}

// The record from its first piece on, up to its mark at `end`.
fn put_back<D: Disk>(
    disk: &mut D,
    gathering: &mut Gathering,
    at: u64,
    redo: &Redo,
    end: u64,
) -> Result<(), DiskFailed>
    requires place { 16 ≤ at }
    requires end { end ≡ at + length (flat_map (piece_bytes Two) redo.now.pieces) }
    requires fits { end + 4 < 2 ^ 63 }
    requires bound { IsBound gathering.old (D.device disk.old).contents }
    requires room { Reaches (told_with gathering.old (D.device disk.old).contents) Jnl (end + 4) }
    ensures { PutsBytes at (back_bytes redo.now.pieces) gathering.old (D.device disk.old)
        gathering.new (D.device disk.new) result }
{
    put_pieces(disk, gathering, at, redo)?;
    put(disk, gathering, end, b"JBJF")
}

// The whole record, of this size, from its parts.
fn put_record<D: Disk>(
    disk: &mut D,
    gathering: &mut Gathering,
    redo: &Redo,
    change: u64,
    size: u64,
) -> Result<(), DiskFailed>
    requires writable { IsWritable redo.now }
    requires size { size ≡ spelled_record redo.now }
    requires bound { IsBound gathering.old (D.device disk.old).contents }
    requires room { Reaches (told_with gathering.old (D.device disk.old).contents) Jnl (16 + size) }
    ensures { PutsBytes 16 (record_bytes Two change redo.now.lengths redo.now.pieces) gathering.old (D.device disk.old)
        gathering.new (D.device disk.new) result }
{
    put_front(disk, gathering, change, redo.lengths(), redo.pieces())?;
    let at = 36 + 12 * redo.lengths().len() as u64;
    put_back(disk, gathering, at, redo, 12 + size)
}

// The whole record, of this size, in as few writes as are gathered.
fn put_gathered<D: Disk>(
    disk: &mut D,
    redo: &Redo,
    change: u64,
    size: u64,
) -> Result<(), DiskFailed>
    requires writable { IsWritable redo.now }
    requires size { size ≡ spelled_record redo.now }
    requires room { Reaches (D.device disk.old).contents Jnl (16 + size) }
    ensures told { OnOk result ((D.device disk.new).contents ≡ option_map (written Jnl 16
        (record_bytes Two change redo.now.lengths redo.now.pieces)) (D.device disk.old).contents) }
    ensures keeps { (start : Files) → Keeps (KeepsHead start) (D.device disk.old)
        (D.device disk.new) }
    ensures come { OnOk result (ComeBy [] [] (D.device disk.old).moments (D.device disk.new).moments) }
    ensures cause { FailsBy ⊥ (D.device disk.old) (D.device disk.new) result }
{
    let mut gathering = Gathering::new(FileId::Jnl, 16);
    put_record(disk, &mut gathering, redo, change, size)?;
    gathering.flush(disk)
}

/// Writes the record behind the head of the journal, ends the journal with it, and syncs it.
pub(crate) fn write_record<D: Disk>(
    disk: &mut D,
    redo: &Redo,
    change: u64,
) -> Result<(), DiskFailed>
    requires writable { IsWritable redo.now }
    requires room { Reaches (D.device disk.old).contents Jnl 16 }
    ensures told { OnOk result ((D.device disk.new).contents ≡ option_map (with_record change redo.now)
        (D.device disk.old).contents) }
    ensures durable { OnOk result (ForSome (D.device disk.old).contents (λ files. LeavesNow (λ left.
        left Jnl ≡ with_record change redo.now files Jnl) (D.device disk.new).moments)) }
    ensures keeps { (start : Files) → Keeps (KeepsHead start) (D.device disk.old)
        (D.device disk.new) }
    ensures come { OnOk result (ComeBy (journal_length redo.now ∷ []) (Jnl ∷ [])
        (D.device disk.old).moments (D.device disk.new).moments) }
    ensures cause { FailsBy ⊥ (D.device disk.old) (D.device disk.new) result }
{
    let size = record_size(redo);
    disk.set_len(FileId::Jnl, 16 + size)?;
    put_gathered(disk, redo, change, size)?;
    disk.sync(FileId::Jnl)
}
