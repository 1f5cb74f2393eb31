//! What a crash has left is made good.
ghost use Rattle.std.specs.Prelude.{◌≡◌, List, Some, IsSome, IfOk, IfErr, OnOk};
ghost use Rattle.std.specs.Option.{ForSome};
ghost use Rattle.jb_disk.specs.declared.piece.Length.{Length};
ghost use Rattle.jb_disk.specs.declared.piece.Piece.{Piece};
ghost use Rattle.jb_disk.specs.Device.{FailsBy, TellsAlike, CountsFaults};
ghost use Rattle.jb_disk.specs.Files.{Files};
ghost use Rattle.jb_disk.specs.Images.{Images};
ghost use Rattle.jb_disk.specs.Runs.{LeavesNow, Runs, Keeps, LeavesOnly, IsAllSynced};
ghost use Rattle.jb_disk.specs.declared.file.FileId.TheVariants.{Jnl};
ghost use Rattle.jb_disk.specs.Gate.{IsGateOpen, with_gate_closed};
ghost use Rattle.jb_redo.specs.OnTheWay.{IsOnTheWay};
ghost use Rattle.jb_redo.specs.Reading.{HasRecord};
ghost use Rattle.jb_redo.specs.Replay.{Replays};
ghost use Rattle.jb_journal.specs.declared.error.JournalError.TheVariants.{StoreFault};
ghost use Rattle.jb_journal.specs.Filing.{AgreeBelow};
ghost use Rattle.jb_journal.specs.Stages.{IsAtGate};
ghost use Rattle.jb_journal.specs.Recover.{IsFound, IsGrowthSafe, IsRefusedOver, FirmSince, ReplaysAs, MightBe, ReplaysAsAtStart, is_journal_fault};
ghost use Rattle.jb_journal.specs.Writing.{Adds};

use crate::gate::{is_gate_open, set_gate};
use crate::{JournalError, Recovered};
use jb_disk::{Disk, DiskFailed, FileId};
use jb_redo::{apply_record, test_record};

// Syncs the four files of the base.
fn sync_base<D: Disk>(disk: &mut D) -> Result<(), DiskFailed>
    ensures kept { OnOk result ((D.device disk.new).contents ≡ (D.device disk.old).contents) }
    ensures durable { OnOk result (ForSome (D.device disk.old).contents (λ final.
        LeavesNow (AgreeBelow 4 final) (D.device disk.new).moments)) }
    ensures first { (first : List Images) → Keeps (MightBe first) (D.device disk.old)
        (D.device disk.new) }
    ensures way { (lengths : List Length) (pieces : List Piece) (start : Files)
        → Keeps (IsOnTheWay lengths pieces start) (D.device disk.old) (D.device disk.new) }
    ensures few { Adds 4 (D.device disk.old).moments (D.device disk.new).moments }
    ensures cause { FailsBy ⊥ (D.device disk.old) (D.device disk.new) result }
{
    disk.sync(FileId::Jhr)?;
    disk.sync(FileId::Jdt)?;
    disk.sync(FileId::Jdx)?;
    disk.sync(FileId::Jlr)
}

/// Syncs every file: six calls. From there on a crash leaves what is read.
pub fn sync_all<D: Disk>(disk: &mut D) -> Result<(), DiskFailed>
    ensures kept { OnOk result ((D.device disk.new).contents ≡ (D.device disk.old).contents) }
    ensures durable { OnOk result (IsAllSynced (D.device disk.new)) }
    ensures first { (first : List Images) → Keeps (MightBe first) (D.device disk.old)
        (D.device disk.new) }
    ensures firm { ForSome (D.device disk.old).contents (λ was. FirmSince (λ left. left ≡ was)
        (D.device disk.old).moments (D.device disk.new).moments) }
    ensures cause { FailsBy ⊥ (D.device disk.old) (D.device disk.new) result }
{
    sync_base(disk)?;
    disk.sync(FileId::Jnl)?;
    disk.sync(FileId::Ndt)
}

// Closes the gate where it is open.
fn close_gate<D: Disk>(disk: &mut D) -> Result<(), DiskFailed>
    ensures told { OnOk result (ForSome (D.device disk.old).contents (λ files. IsGateOpen files
        → (D.device disk.new).contents ≡ Some (with_gate_closed files))) }
    ensures durable { OnOk result (ForSome (D.device disk.old).contents (λ files. IsGateOpen files
        → LeavesNow (λ left. left Jnl ≡ with_gate_closed files Jnl) (D.device disk.new).moments)) }
    ensures keeps { (base : Files) → Keeps (IsAtGate base) (D.device disk.old) (D.device disk.new) }
    ensures cause { FailsBy ⊥ (D.device disk.old) (D.device disk.new) result }
{
    if is_gate_open(disk)? {
        set_gate(disk, 0)
    } else {
        Ok(())
    }
}

// Does the record, syncs the files of the base, and closes the gate.
fn redo_record<D: Disk>(disk: &mut D) -> Result<(), JournalError>
    requires record { ForSome (D.device disk.old).contents HasRecord }
    requires gate { ForSome (D.device disk.old).contents IsGateOpen }
    requires synced { IsAllSynced (D.device disk.old) }
    ensures done { OnOk result (ForSome (D.device disk.old).contents (λ was. IsGrowthSafe was
        → ForSome (D.device disk.new).contents (Replays was))) }
    ensures durable { OnOk result (IsAllSynced (D.device disk.new)) }
    ensures closed { OnOk result (ForSome (D.device disk.new).contents (λ now. IsGateOpen now → ⊥)) }
    ensures told { OnOk result (IsSome (D.device disk.old).contents
        → IsSome (D.device disk.new).contents) }
    ensures run { ForSome (D.device disk.old).contents (λ was. IsGrowthSafe was
        → Runs (ReplaysAs was) (D.device disk.old).moments (D.device disk.new).moments) }
    ensures fault { IfErr result (λ error. ForSome (D.device disk.old).contents (λ was.
        error ≡ StoreFault)) }
    ensures faults { CountsFaults is_journal_fault (D.device disk.old) (D.device disk.new) result }
    ensures alike { TellsAlike (D.device disk.old) (D.device disk.new) }
{
    apply_record(disk)?;
    sync_base(disk)?;
    close_gate(disk)?;
    Ok(())
}

/// Makes good what a crash has left, before the files are read: syncs every file, and where the gate is open does the
/// journal's record, syncs the files of the base and closes the gate. It may be stopped and begun again at any of its calls.
/// Takes no memory.
///
/// `BadRecord` comes exactly where the gate is open and the journal holds no record, and then nothing is written.
pub fn recover<D: Disk>(disk: &mut D) -> Result<Recovered, JournalError>
    // What it found, and the files then: as they were behind a closed gate, and else with the record done.
    ensures found { IfOk result (λ found. ForSome (D.device disk.old).contents (IsFound found)) }
    ensures done { OnOk result (ForSome (D.device disk.old).contents (λ was. IsGrowthSafe was
        → ForSome (D.device disk.new).contents (Replays was))) }

    // Whatever the record writes and leaves unwritten: the gate is closed, nothing is unsynced, and a disk that told its
    // files tells them still.
    ensures closed { OnOk result (ForSome (D.device disk.new).contents (λ now. IsGateOpen now → ⊥)) }
    ensures durable { OnOk result (IsAllSynced (D.device disk.new)) }
    ensures told { OnOk result (IsSome (D.device disk.old).contents
        → IsSome (D.device disk.new).contents) }

    // Why it is refused.
    ensures refused { IfErr result (λ error. ForSome
        (D.device disk.old).contents (IsRefusedOver error (D.device disk.new))) }
    ensures faults { CountsFaults is_journal_fault (D.device disk.old) (D.device disk.new) result }

    // A crash at any moment leaves files that replay to what some files replay to that it might have left at the start.
    ensures crash { ForSome (D.device disk.old).contents (λ was. IsGrowthSafe was
        → LeavesOnly (D.device disk.old) (D.device disk.new) (ReplaysAsAtStart
        (D.device disk.old).moments)) }

    // Once the first syncs are done, a crash at any moment leaves files that replay to just what those replay to that were read
    // at the start.
    ensures firm { ForSome (D.device disk.old).contents (λ was. IsGrowthSafe was
        → FirmSince (ReplaysAs was) (D.device disk.old).moments (D.device disk.new).moments) }

    // A disk that tells its files goes on telling them, and one that tells nothing goes on so, whatever is answered.
    ensures alike { TellsAlike (D.device disk.old) (D.device disk.new) }
{
    sync_all(disk)?;
    if !is_gate_open(disk)? {
        return Ok(Recovered::Closed);
    }
    let head = test_record(disk)?;
    redo_record(disk)?;
    Ok(Recovered::Replayed {
        version: head.version.number() as u32,
        change: head.change,
    })
}
