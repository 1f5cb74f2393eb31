//! Whether a change that was stopped stands.
ghost use Rattle.std.specs.Prelude.{◌≡◌, ℕ, ◌↔◌, IsTrue, IfOk, IfErr, OnOk};
ghost use Rattle.std.specs.Option.{ForSome};
ghost use Rattle.jb_disk.specs.declared.file.FileId.TheVariants.{Jnl};
ghost use Rattle.jb_disk.specs.declared.version.Version.TheVariants.{Two};
ghost use Rattle.jb_disk.specs.RedoView.{RedoView};
ghost use Rattle.jb_disk.specs.Device.{FailsBy, MayChange, TellsAlike, CountsFaults, is_disk_fault};
ghost use Rattle.jb_disk.specs.Files.{Files};
ghost use Rattle.jb_disk.specs.Images.{just_synced, with_image};
ghost use Rattle.jb_disk.specs.Runs.{LeavesNow, Shows, Keeps, LeavesOnly, IsAllSynced};
ghost use Rattle.jb_disk.specs.Gate.{IsGateOpen};
ghost use Rattle.jb_redo.specs.Rules.{AreLegalLengths};
ghost use Rattle.jb_journal.specs.declared.stopped.Stopped.{Stopped};
ghost use Rattle.jb_journal.specs.declared.stopped.Stopped.TheVariants.{Early, Late};
ghost use Rattle.jb_journal.specs.Commit.{IsReady};
ghost use Rattle.jb_journal.specs.Doubt.{IsInDoubt, HasStopped, HasTriedToSync, DoubtReplays, IsSettledAt, settled_files};

use crate::Stopped;
use crate::committing::write_and_close;
use crate::gate::is_gate_open;
use crate::preparing::make_head;
use jb_disk::{Disk, DiskFailed, FileId, Redo};

// Syncs the journal, and tells whether the gate is open.
fn sync_gate<D: Disk>(disk: &mut D) -> Result<bool, DiskFailed>
    ensures found { IfOk result (λ is_open. ForSome (D.device disk.old).contents (λ files.
        IsTrue is_open ↔ IsGateOpen files)) }
    ensures kept { OnOk result ((D.device disk.new).contents ≡ (D.device disk.old).contents) }
    ensures durable { OnOk result (ForSome (D.device disk.old).contents (λ files. LeavesNow (λ left.
        left Jnl ≡ files Jnl) (D.device disk.new).moments)) }
    ensures asks { ForSome (D.device disk.old).contents (λ files.
        MayChange (with_image Jnl (λ _. just_synced (files Jnl))) (D.device disk.old).moments
        (D.device disk.new).moments) }
    ensures keeps { (stopped : Stopped) (number : ℕ) (change : RedoView) (start : Files)
        → Keeps (IsInDoubt stopped number change start) (D.device disk.old) (D.device disk.new) }
    ensures cause { FailsBy ⊥ (D.device disk.old) (D.device disk.new) result }
{
    disk.sync(FileId::Jnl)?;
    is_gate_open(disk)
}

/// Settles whether the change of a stopped [`commit`](crate::commit) stands, and finishes it where it does. It is given the
/// same change and where it was stopped; after a refusal it is called again with what that says. Takes no memory.
///
/// It begins with a sync of the journal and a read of the gate. An open gate means stages 3 and 4 once more. A closed one
/// means after a late stop that the change is there, and after an early one that it is not.
pub fn settle<D: Disk>(disk: &mut D, redo: &Redo, stopped: Stopped) -> Result<bool, Stopped>
    requires lengths { AreLegalLengths Two redo.now.lengths }
    requires in_doubt { ForSome (D.device disk.old).contents (λ files.
        HasStopped stopped redo.now (D.device disk.old)) }

    // Settled: the files with the change or without it, as it answers, the gate closed, and nothing unsynced.
    ensures answer { IfOk result (λ stands. (number : ℕ) (start : Files) → IsReady number redo.now start
        → Shows (IsInDoubt stopped number redo.now start) (D.device disk.old)
        → Shows (IsSettledAt (settled_files stands redo.now start)) (D.device disk.new)) }
    ensures durable { OnOk result ((number : ℕ) (start : Files) → IsReady number redo.now start
        → Shows (IsInDoubt stopped number redo.now start) (D.device disk.old)
        → IsAllSynced (D.device disk.new)) }

    // After an early stop the change stands exactly where the gate was open, and after a late one always.
    ensures early { IfOk result (λ stands. stopped ≡ Early
        → ForSome (D.device disk.old).contents (λ files. IsTrue stands ↔ IsGateOpen files)) }
    ensures late { IfOk result (λ stands. stopped ≡ Late → IsTrue stands) }

    // Stopped again: only by a fault, with the doubt that it says. Late stays late, and early becomes late by an open gate
    // alone; by one it does, but for a stop that comes before the gate is read.
    ensures faults { CountsFaults is_disk_fault (D.device disk.old) (D.device disk.new) result }
    ensures still { IfErr result (λ again. (number : ℕ) (start : Files) → IsReady number redo.now start
        → Shows (IsInDoubt stopped number redo.now start) (D.device disk.old)
        → Shows (IsInDoubt again number redo.now start) (D.device disk.new)) }
    ensures late_stays { IfErr result (λ again. stopped ≡ Late → again ≡ Late) }
    ensures late_by { IfErr result (λ again. stopped ≡ Early → again ≡ Late
        → ForSome (D.device disk.old).contents IsGateOpen) }
    ensures early_by { IfErr result (λ again. again ≡ Early
        → HasTriedToSync (D.device disk.old) (D.device disk.new)) }

    // A crash at any moment leaves what the doubt allows.
    ensures crash { (number : ℕ) (start : Files) → IsReady number redo.now start
        → Shows (IsInDoubt stopped number redo.now start) (D.device disk.old)
        → LeavesOnly (D.device disk.old) (D.device disk.new) (DoubtReplays stopped redo.now start) }

    // A disk that tells its files goes on telling them, and one that tells nothing goes on so, whatever is answered.
    ensures alike { TellsAlike (D.device disk.old) (D.device disk.new) }
{
    let Ok(is_open) = sync_gate(disk) else {
        return Err(stopped);
    };
    if is_open {
        let Ok(()) = write_and_close(disk, redo) else {
            return Err(Stopped::Late);
        };
        return Ok(true);
    }
    match stopped {
        Stopped::Late => Ok(true),
        Stopped::Early => {
            let Ok(()) = make_head(disk) else {
                return Err(Stopped::Early);
            };
            Ok(false)
        }
    }
}
