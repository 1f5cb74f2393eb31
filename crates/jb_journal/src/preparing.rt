//! A journal is given its head.
ghost use Rattle.std.specs.Prelude.{◌≡◌, ◌↔◌, IsTrue, IfOk, IfErr, OnOk};
ghost use Rattle.std.specs.Option.{ForSome, option_map};
ghost use Rattle.jb_disk.specs.declared.file.FileId.TheVariants.{Jnl};
ghost use Rattle.jb_disk.specs.Device.{FailsBy, OnlyReads, TellsAlike, Turns, CountsFaults, is_disk_fault};
ghost use Rattle.jb_disk.specs.Files.{Files, with_file, InFile, IsResized};
ghost use Rattle.jb_disk.specs.Gate.{IsGateOpen};
ghost use Rattle.jb_disk.specs.Runs.{LeavesNow, Shows, Keeps, LeavesOnly, IsAllSynced};
ghost use Rattle.jb_journal.specs.declared.stopped.Stopped.TheVariants.{Early};
ghost use Rattle.jb_journal.specs.Prepare.{AddsNoneUnsynced, AgreeBut, FromNewest, IsPrepared, IsPreparing, IsShort, WantsHead, plain_head};

use crate::Stopped;
use jb_disk::{Disk, DiskFailed, FileId, Version};

// Whether the journal wants the head of the second version.
fn wants_head<D: Disk>(disk: &mut D) -> Result<bool, DiskFailed>
    ensures found { IfOk result (λ wants. ForSome (D.device disk.old).contents (λ files.
        IsTrue wants ↔ WantsHead files)) }
    ensures kept { OnlyReads (D.device disk.old) (D.device disk.new) }
    ensures cause { FailsBy ⊥ (D.device disk.old) (D.device disk.new) result }
{
    if disk.len(FileId::Jnl)? <= 16 {
        return Ok(true);
    }
    let mut second = [0];
    disk.read_at(FileId::Jnl, 1, &mut second)?;
    match Version::told_by(second[0]) {
        Version::One => Ok(true),
        Version::Two => Ok(false),
    }
}

// Sixteen bytes, whatever they are, and no more.
fn cut_to_head<D: Disk>(disk: &mut D) -> Result<(), DiskFailed>
    ensures told { OnOk result (Turns (InFile Jnl (IsResized 16)) (D.device disk.old).contents
        (D.device disk.new).contents) }
    ensures short { OnOk result ((start : Files) → WantsHead start
        → Shows (IsPreparing start) (D.device disk.old) → Shows (IsShort start) (D.device disk.new)) }
    ensures others { OnOk result (ForSome (D.device disk.new).contents (λ files.
        FromNewest (AgreeBut Jnl) (D.device disk.old).moments (D.device disk.new).moments)) }
    ensures keeps { (start : Files) → WantsHead start
        → Keeps (IsPreparing start) (D.device disk.old) (D.device disk.new) }
    ensures cause { FailsBy ⊥ (D.device disk.old) (D.device disk.new) result }
{
    disk.set_len(FileId::Jnl, 16)?;
    disk.sync(FileId::Jnl)
}

// A new head.
fn give_head<D: Disk>(disk: &mut D) -> Result<(), DiskFailed>
    ensures told { OnOk result ((D.device disk.new).contents ≡ option_map (with_file Jnl plain_head)
        (D.device disk.old).contents) }
    ensures durable { OnOk result (ForSome (D.device disk.old).contents (λ files. LeavesNow (λ left.
        left Jnl ≡ plain_head) (D.device disk.new).moments)) }
    ensures own { OnOk result (ForSome (D.device disk.new).contents (λ files.
        FromNewest (AddsNoneUnsynced files) (D.device disk.old).moments (D.device disk.new).moments)) }
    ensures keeps { (start : Files) → WantsHead start
        → Keeps (IsPreparing start) (D.device disk.old) (D.device disk.new) }
    ensures cause { FailsBy ⊥ (D.device disk.old) (D.device disk.new) result }
{
    cut_to_head(disk)?;
    disk.write_at(
        FileId::Jnl,
        0,
        &[0, 2, 0, 0, 0, 0, 0, 0, 0, 0, 0, 0, 0, 0, 0, 0],
    )?;
    disk.sync(FileId::Jnl)
}

/// What [`prepare`] does.
pub(crate) fn make_head<D: Disk>(disk: &mut D) -> Result<(), DiskFailed>
    requires { ForSome (D.device disk.old).contents (λ files. IsGateOpen files → ⊥) }
    ensures made { OnOk result (Turns IsPrepared (D.device disk.old).contents
        (D.device disk.new).contents) }
    ensures durable { OnOk result ((start : Files) → Shows (IsPreparing start) (D.device disk.old)
        → IsAllSynced (D.device disk.new)) }
    ensures own { OnOk result (ForSome (D.device disk.new).contents (λ files.
        FromNewest (AddsNoneUnsynced files) (D.device disk.old).moments (D.device disk.new).moments)) }
    ensures keeps { (start : Files) → Keeps (IsPreparing start) (D.device disk.old)
        (D.device disk.new) }
    ensures cause { FailsBy ⊥ (D.device disk.old) (D.device disk.new) result }
{
    if wants_head(disk)? {
        give_head(disk)
    } else {
        Ok(())
    }
}

/// Gives a journal of version 1 or of at most 16 bytes the head of version 2: it sets the length to 16, syncs, writes the
/// head and syncs. Another journal it leaves as it is. The gate is to be closed. It is to be called before a first
/// [`commit`](crate::commit), and again after a refusal. Takes no memory.
pub fn prepare<D: Disk>(disk: &mut D) -> Result<(), Stopped>
    requires { ForSome (D.device disk.old).contents (λ files. IsGateOpen files → ⊥) }

    // What it makes: the journal has at least its head then, and where it is given one, with the gate closed.
    ensures made { OnOk result (Turns IsPrepared (D.device disk.old).contents
        (D.device disk.new).contents) }
    ensures durable { OnOk result (IsAllSynced (D.device disk.old)
        → IsAllSynced (D.device disk.new)) }

    // It leaves no unsynced write of its own, whatever was unsynced before.
    ensures own { OnOk result (ForSome (D.device disk.new).contents (λ files.
        FromNewest (AddsNoneUnsynced files) (D.device disk.old).moments (D.device disk.new).moments)) }

    // A refusal is early, and has a fault as its cause.
    ensures early { IfErr result (λ stopped. stopped ≡ Early) }
    ensures faults { CountsFaults is_disk_fault (D.device disk.old) (D.device disk.new) result }

    // At each moment, and after a refusal, the other files are as they were, and a gate that was closed stays so.
    ensures shows { ForSome (D.device disk.old).contents (λ start. IsAllSynced (D.device disk.old)
        → Shows (IsPreparing start) (D.device disk.new)) }
    ensures crash { ForSome (D.device disk.old).contents (λ start. IsAllSynced (D.device disk.old)
        → LeavesOnly (D.device disk.old) (D.device disk.new) (IsPreparing start)) }

    // Begun again after a refusal, over what a preparing of the files at the start left: it goes on so, and the gate stays
    // closed. When it is done it has made of those files what it makes at once, with nothing unsynced.
    ensures still { (start : Files) → Keeps (IsPreparing start) (D.device disk.old)
        (D.device disk.new) }
    ensures shut { (start : Files) → (IsGateOpen start → ⊥)
        → Shows (IsPreparing start) (D.device disk.old)
        → ForSome (D.device disk.new).contents (λ files. IsGateOpen files → ⊥) }
    ensures again { OnOk result ((start : Files) → Shows (IsPreparing start) (D.device disk.old)
        → ForSome (D.device disk.new).contents (IsPrepared start) × IsAllSynced (D.device disk.new)) }

    // A disk that tells its files goes on telling them, and one that tells nothing goes on so, whatever is answered.
    ensures alike { TellsAlike (D.device disk.old) (D.device disk.new) }
{
    match make_head(disk) {
        Ok(()) => Ok(()),
        Err(DiskFailed) => Err(Stopped::Early),
    }
}
