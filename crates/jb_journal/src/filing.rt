//! Stage 3: the lengths are set, the pieces are written, and the changed files are synced.
ghost use Rattle.std.specs.Prelude.{◌≡◌, ◌≢◌, ◌↔◌, ◌<◌, All, List, [], length, OnOk, false};
ghost use Rattle.std.specs.Option.{option_map, ForSome};
ghost use Rattle.jb_disk.specs.declared.file.FileId.{FileId};
ghost use Rattle.jb_disk.specs.declared.piece.Length.{Length};
ghost use Rattle.jb_disk.specs.declared.piece.Piece.{Piece};
ghost use Rattle.jb_disk.specs.declared.version.Version.TheVariants.{Two};
ghost use Rattle.jb_disk.specs.Device.{FailsBy, Turns};
ghost use Rattle.jb_disk.specs.Files.{Files, file_number};
ghost use Rattle.jb_disk.specs.Runs.{LeavesNow, Shows, Keeps};
ghost use Rattle.jb_redo.specs.OnTheWay.{IsOnTheWay};
ghost use Rattle.jb_redo.specs.Replay.{target_of, applied, IsGrowthCovered};
ghost use Rattle.jb_redo.specs.Rules.{sizes_of, AreLegalLengths, IsLegalRecord};
ghost use Rattle.jb_journal.specs.Coming.{ComeBy, SyncsIfChanged, SyncsChanged};
ghost use Rattle.jb_journal.specs.Filing.{HaveNewLengths, AgreeBelow, with_piece, with_pieces, HasPlace, IsUnmentioned};
ghost use Rattle.jb_journal.specs.Pending.{told_with, StandsInFile, IsFrom};
ghost use Rattle.jb_journal.specs.Spelling.{nth_piece};

use crate::copying::Copying;
use crate::gathering::Gathering;
use jb_disk::{Disk, DiskFailed, FileId, Length, Redo};

// Sets the new lengths in order.
fn set_lengths<D: Disk>(disk: &mut D, lengths: &[Length]) -> Result<(), DiskFailed>
    requires { AreLegalLengths Two lengths.now }
    ensures told { OnOk result (Turns (HaveNewLengths lengths.now) (D.device disk.old).contents
        (D.device disk.new).contents) }
    ensures keeps { (pieces : List Piece) (start : Files)
        → Keeps (IsOnTheWay lengths.now pieces start) (D.device disk.old) (D.device disk.new) }
    ensures come { OnOk result (ComeBy lengths.now [] (D.device disk.old).moments
        (D.device disk.new).moments) }
    ensures cause { FailsBy ⊥ (D.device disk.old) (D.device disk.new) result }
{
    for entry in lengths {
        disk.set_len(entry.file, entry.len)?;
    }
    Ok(())
}

// Writes one piece, or puts its bytes on their way.
fn put_piece<D: Disk>(
    disk: &mut D,
    gathering: &mut Gathering,
    redo: &Redo,
    k: u32,
) -> Result<(), DiskFailed>
    requires within { k < length redo.now.pieces }
    requires held { StandsInFile gathering.old (D.device disk.old).contents }
    requires place { ForSome (told_with gathering.old (D.device disk.old).contents) (λ files.
        HasPlace files (nth_piece redo.now.pieces k)) }
    ensures told { OnOk result (told_with gathering.new (D.device disk.new).contents ≡ option_map
        (with_piece (nth_piece redo.now.pieces k)) (told_with gathering.old (D.device disk.old).contents)) }
    ensures held { OnOk result (StandsInFile gathering.new (D.device disk.new).contents) }
    ensures keeps { (lengths : List Length) (start : Files)
        → IsLegalRecord Two (sizes_of start) lengths redo.now.pieces → IsFrom start redo.now.pieces gathering.old
        → IsFrom start redo.now.pieces gathering.new
        × Keeps (IsOnTheWay lengths redo.now.pieces start) (D.device disk.old) (D.device disk.new) }
    ensures come { OnOk result (ComeBy [] [] (D.device disk.old).moments (D.device disk.new).moments) }
    ensures cause { FailsBy ⊥ (D.device disk.old) (D.device disk.new) result }
{
    let head = redo.head(k);
    if head.copy {
        gathering.flush(disk)?;
        let whole = Copying {
            from: head.from,
            from_at: head.from_at,
            to: head.to,
            to_at: head.to_at,
        };
        gathering.copy(disk, whole, head.len)
    } else {
        gathering.put(disk, head.to, head.to_at, redo.bytes(k))
    }
}

// Writes the pieces in order. Those that follow each other in a file are gathered.
fn put_pieces<D: Disk>(disk: &mut D, redo: &Redo) -> Result<(), DiskFailed>
    requires place { ForSome (D.device disk.old).contents (λ files.
        All (HasPlace files) redo.now.pieces) }
    ensures told { OnOk result ((D.device disk.new).contents ≡ option_map (with_pieces
        redo.now.pieces) (D.device disk.old).contents) }
    ensures keeps { (lengths : List Length) (start : Files)
        → IsLegalRecord Two (sizes_of start) lengths redo.now.pieces
        → Keeps (IsOnTheWay lengths redo.now.pieces start) (D.device disk.old) (D.device disk.new) }
    ensures come { OnOk result (ComeBy [] [] (D.device disk.old).moments (D.device disk.new).moments) }
    ensures cause { FailsBy ⊥ (D.device disk.old) (D.device disk.new) result }
{
    let mut gathering = Gathering::new(FileId::Jhr, 0);
    for k in 0..redo.pieces() {
        put_piece(disk, &mut gathering, redo, k)?;
    }
    gathering.flush(disk)
}

// Whether a new length is one of this file.
fn sets(lengths: &[Length], file: FileId) -> bool
    ensures { (result ≡ false) ↔ All (λ entry. file_number (entry.file) ≢ file_number file) lengths.now }
{
    lengths
        .iter()
        .any(|entry| entry.file.number() == file.number())
}

// Whether a piece is written into this file.
fn writes(redo: &Redo, file: FileId) -> bool
    ensures { (result ≡ false) ↔ All (λ piece.
        file_number (target_of piece) ≢ file_number file) redo.now.pieces }
{
    for k in 0..redo.pieces() {
        if redo.head(k).to.number() == file.number() {
            return true;
        }
    }
    false
}

// Whether the change speaks of this file.
fn is_changed(redo: &Redo, file: FileId) -> bool
    ensures { (result ≡ false) ↔ IsUnmentioned redo.now.lengths redo.now.pieces file }
{
    sets(redo.lengths(), file) || writes(redo, file)
}

// Syncs a file of which the change speaks, and does nothing with another.
fn sync_if_changed<D: Disk>(disk: &mut D, redo: &Redo, file: FileId) -> Result<(), DiskFailed>
    ensures kept { OnOk result ((D.device disk.new).contents ≡ (D.device disk.old).contents) }
    ensures durable { OnOk result ((start : Files)
        → Shows (IsOnTheWay redo.now.lengths redo.now.pieces start) (D.device disk.old)
        → ForSome (D.device disk.old).contents (λ final. LeavesNow (λ left.
        left file ≡ final file) (D.device disk.new).moments)) }
    ensures come { OnOk result (SyncsIfChanged redo.now.lengths redo.now.pieces file
        (D.device disk.old).moments (D.device disk.new).moments) }

    // What was known of what a crash leaves.
    ensures keeps { (start : Files)
        → Keeps (IsOnTheWay redo.now.lengths redo.now.pieces start) (D.device disk.old)
        (D.device disk.new) }
    ensures others { (other : FileId) (final : Files) → Keeps (λ left.
        left other ≡ final other) (D.device disk.old) (D.device disk.new) }
    ensures cause { FailsBy ⊥ (D.device disk.old) (D.device disk.new) result }
{
    if is_changed(redo, file) {
        disk.sync(file)
    } else {
        Ok(())
    }
}

// Syncs each file of the base of which the change speaks.
fn sync_changed<D: Disk>(disk: &mut D, redo: &Redo) -> Result<(), DiskFailed>
    ensures kept { OnOk result ((D.device disk.new).contents ≡ (D.device disk.old).contents) }
    ensures durable { OnOk result ((start : Files)
        → Shows (IsOnTheWay redo.now.lengths redo.now.pieces start) (D.device disk.old)
        → ForSome (D.device disk.old).contents (λ final.
        LeavesNow (AgreeBelow 4 final) (D.device disk.new).moments)) }
    ensures keeps { (start : Files)
        → Keeps (IsOnTheWay redo.now.lengths redo.now.pieces start) (D.device disk.old)
        (D.device disk.new) }
    ensures come { OnOk result (SyncsChanged [] [] [] redo.now.lengths redo.now.pieces
        (D.device disk.old).moments (D.device disk.new).moments) }
    ensures cause { FailsBy ⊥ (D.device disk.old) (D.device disk.new) result }
{
    sync_if_changed(disk, redo, FileId::Jhr)?;
    sync_if_changed(disk, redo, FileId::Jdt)?;
    sync_if_changed(disk, redo, FileId::Jdx)?;
    sync_if_changed(disk, redo, FileId::Jlr)
}

/// Does the change in the files of the base, and syncs those of which it speaks.
pub(crate) fn write_files<D: Disk>(disk: &mut D, redo: &Redo) -> Result<(), DiskFailed>
    requires lengths { AreLegalLengths Two redo.now.lengths }
    requires room { ForSome (D.device disk.old).contents (λ files.
        IsLegalRecord Two (sizes_of files) redo.now.lengths redo.now.pieces) }
    ensures told { OnOk result ((start : Files)
        → IsLegalRecord Two (sizes_of start) redo.now.lengths redo.now.pieces
        → IsGrowthCovered redo.now.lengths redo.now.pieces start
        → ForSome (D.device disk.old).contents (IsOnTheWay redo.now.lengths redo.now.pieces start)
        → (D.device disk.new).contents ≡ option_map (λ _.
        applied redo.now.lengths redo.now.pieces start) (D.device disk.old).contents) }
    ensures durable { OnOk result ((start : Files)
        → IsLegalRecord Two (sizes_of start) redo.now.lengths redo.now.pieces
        → Shows (IsOnTheWay redo.now.lengths redo.now.pieces start) (D.device disk.old)
        → ForSome (D.device disk.new).contents (λ final. LeavesNow (λ left.
        left ≡ final) (D.device disk.new).moments)) }
    ensures keeps { (start : Files) → IsLegalRecord Two (sizes_of start) redo.now.lengths redo.now.pieces
        → Keeps (IsOnTheWay redo.now.lengths redo.now.pieces start) (D.device disk.old)
        (D.device disk.new) }
    ensures come { OnOk result (SyncsChanged [] [] redo.now.lengths redo.now.lengths redo.now.pieces
        (D.device disk.old).moments (D.device disk.new).moments) }
    ensures cause { FailsBy ⊥ (D.device disk.old) (D.device disk.new) result }
{
    set_lengths(disk, redo.lengths())?;
    put_pieces(disk, redo)?;
    sync_changed(disk, redo)
}
