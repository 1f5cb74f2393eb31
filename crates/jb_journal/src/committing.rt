//! The four stages of a commit.
ghost use Rattle.std.specs.Prelude.{◌≡◌, [], ◌∷◌, IfErr, OnOk};
ghost use Rattle.std.specs.Option.{ForSome, option_map};
ghost use Rattle.jb_disk.specs.declared.file.FileId.TheVariants.{Jnl};
ghost use Rattle.jb_disk.specs.Device.{FailsBy, TellsAlike, CountsFaults, is_disk_fault};
ghost use Rattle.jb_disk.specs.declared.version.Version.TheVariants.{Two};
ghost use Rattle.jb_disk.specs.Files.{Files};
ghost use Rattle.jb_disk.specs.Runs.{Shows, Runs, LeavesOnly, IsAllSynced};
ghost use Rattle.jb_disk.specs.Gate.{version_of};
ghost use Rattle.jb_redo.specs.Rules.{AreLegalLengths};
ghost use Rattle.jb_journal.specs.Coming.{ComeBy, SyncsChanged, HasSynced, journal_length};
ghost use Rattle.jb_journal.specs.Commit.{IsReady, IsBeforeOrAfter, ReplaysTo, committed};
ghost use Rattle.jb_redo.specs.Changes.{IsWritable, changed};
ghost use Rattle.jb_journal.specs.Doubt.{IsEarly, IsInDoubt, IsSettledAt};
ghost use Rattle.jb_journal.specs.Opening.{OpensGateFor, WhereTold, OpensNowFor};
ghost use Rattle.jb_journal.specs.Stages.{IsOpened, IsGoing, IsClosing, IsUnderWay, closed, opened};

use crate::Stopped;
use crate::filing::write_files;
use crate::gate::set_gate;
use crate::recording::write_record;
use jb_disk::{Disk, DiskFailed, Redo};

// Stages 1 and 2: the record, and then the gate open, each synced. Its buffer is in a frame of its own, as the one of
// stages 3 and 4 is: where the stack cannot grow so far the program ends before the gate is open, and not behind it.
#[inline(never)]
fn record_and_open<D: Disk>(disk: &mut D, redo: &Redo, change: u64) -> Result<(), DiskFailed>
    requires writable { IsWritable redo.now }
    requires ready { ForSome (D.device disk.old).contents (IsReady change redo.now) }
    requires synced { IsAllSynced (D.device disk.old) }
    ensures told { OnOk result ((D.device disk.new).contents ≡ option_map (opened change redo.now)
        (D.device disk.old).contents) }
    ensures going { OnOk result (ForSome (D.device disk.old).contents (λ start.
        Shows (IsGoing redo.now (opened change redo.now start)) (D.device disk.new))) }
    ensures early { ForSome (D.device disk.old).contents (λ start.
        Shows (IsEarly change redo.now start) (D.device disk.new)) }

    // At each moment of it.
    ensures run { ForSome (D.device disk.old).contents (λ start.
        Runs (IsBeforeOrAfter redo.now start) (D.device disk.old).moments
        (D.device disk.new).moments) }
    ensures opening { ForSome (D.device disk.old).contents (λ start.
        WhereTold (D.device disk.old).moments
        (OpensNowFor result (ReplaysTo (changed redo.now start))
        (D.device disk.old).moments (D.device disk.new).moments)) }
    ensures come { OnOk result (ComeBy (journal_length redo.now ∷ []) (Jnl ∷ Jnl ∷ [])
        (D.device disk.old).moments (D.device disk.new).moments) }
    ensures cause { FailsBy ⊥ (D.device disk.old) (D.device disk.new) result }
{
    write_record(disk, redo, change)?;
    set_gate(disk, 2)
}

/// Stages 3 and 4: the change in the files of the base, and then the gate closed, each synced.
#[inline(never)]
pub(crate) fn write_and_close<D: Disk>(disk: &mut D, redo: &Redo) -> Result<(), DiskFailed>
    requires lengths { AreLegalLengths Two redo.now.lengths }
    requires going { ForSome (D.device disk.old).contents (IsUnderWay redo.now) }

    // Where the change is under way from some files with an open gate, it is done, or it stays under way.
    ensures done { OnOk result ((from : Files) → IsOpened redo.now from → version_of from ≡ Two
        → Shows (IsGoing redo.now from) (D.device disk.old)
        → (D.device disk.new).contents ≡ option_map (λ _.
        closed redo.now from) (D.device disk.old).contents) }
    ensures synced { OnOk result ((from : Files) → IsOpened redo.now from → version_of from ≡ Two
        → Shows (IsGoing redo.now from) (D.device disk.old) → IsAllSynced (D.device disk.new)) }
    ensures late { (from : Files) → IsOpened redo.now from → version_of from ≡ Two
        → Shows (IsGoing redo.now from) (D.device disk.old)
        → Shows (IsClosing redo.now from) (D.device disk.new) }
    ensures run { (from : Files) → IsOpened redo.now from → version_of from ≡ Two
        → Shows (IsGoing redo.now from) (D.device disk.old)
        → Runs (ReplaysTo (changed redo.now from)) (D.device disk.old).moments
        (D.device disk.new).moments }
    ensures come { OnOk result (SyncsChanged [] (Jnl ∷ []) redo.now.lengths redo.now.lengths redo.now.pieces
        (D.device disk.old).moments (D.device disk.new).moments) }
    ensures cause { FailsBy ⊥ (D.device disk.old) (D.device disk.new) result }
{
    write_files(disk, redo)?;
    set_gate(disk, 0)
}

/// Does the change as a whole, through the journal. A stop at any moment, or a fault, leaves files that [`recover`](crate::recover)
/// takes to what they were before or to what they are after. The record says the number of the change. Takes no memory.
///
/// Stage 1 ends the journal with the record and syncs it, stage 2 writes the gate byte as 2 and syncs it, stage 3 sets the
/// lengths and writes the pieces in order and syncs each changed file once, and stage 4 writes the gate byte as 0 and syncs
/// it.
pub fn commit<D: Disk>(disk: &mut D, redo: &Redo, change: u64) -> Result<(), Stopped>
    requires writable { IsWritable redo.now }
    requires ready { ForSome (D.device disk.old).contents (IsReady change redo.now) }
    requires synced { IsAllSynced (D.device disk.old) }

    // Done: exactly the files that are wanted, all of them synced; so they are settled at those with the change.
    ensures done { OnOk result ((D.device disk.new).contents ≡ option_map (committed change redo.now)
        (D.device disk.old).contents) }
    ensures durable { OnOk result (IsAllSynced (D.device disk.new)) }
    ensures settled { OnOk result (ForSome (D.device disk.old).contents (λ start.
        Shows (IsSettledAt (changed redo.now start)) (D.device disk.new))) }

    // Stopped: only by a fault, and with what settling is to go on from.
    ensures faults { CountsFaults is_disk_fault (D.device disk.old) (D.device disk.new) result }
    ensures in_doubt { IfErr result (λ stopped. ForSome (D.device disk.old).contents (λ start.
        Shows (IsInDoubt stopped change redo.now start) (D.device disk.new))) }

    // A crash at any moment leaves files before the change or after it, and those after it from the moment on at which the
    // gate has come to stand open for good: none where it is stopped early, and one where it is done or stopped late.
    ensures crash { ForSome (D.device disk.old).contents (λ start.
        LeavesOnly (D.device disk.old) (D.device disk.new) (IsBeforeOrAfter redo.now start)) }
    ensures opening { ForSome (D.device disk.old).contents (λ start.
        WhereTold (D.device disk.old).moments
        (OpensGateFor result (ReplaysTo (changed redo.now start)) (D.device disk.old).moments
        (D.device disk.new).moments)) }

    // It syncs the journal three times and each file once of which the change speaks, and no other.
    ensures syncs { OnOk result (HasSynced redo.now (D.device disk.old).moments (D.device disk.new).moments) }

    // A disk that tells its files goes on telling them, and one that tells nothing goes on so, whatever is answered.
    ensures alike { TellsAlike (D.device disk.old) (D.device disk.new) }
{
    let Ok(()) = record_and_open(disk, redo, change) else {
        return Err(Stopped::Early);
    };
    let Ok(()) = write_and_close(disk, redo) else {
        return Err(Stopped::Late);
    };
    Ok(())
}
