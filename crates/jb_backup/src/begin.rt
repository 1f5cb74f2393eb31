//! A target is synced, found empty and marked unsigned.
ghost use Rattle.std.specs.Prelude.{◌≡◌, ◌<◌, IfErr, OnOk};
ghost use Rattle.std.specs.Option.{ForSome};
ghost use Rattle.jb_disk.specs.Device.{CountsFaults, FailsBy, OnlyReads};
ghost use Rattle.jb_disk.specs.Files.{file_number};
ghost use Rattle.jb_disk.specs.Runs.{IsAllSynced};
ghost use Rattle.jb_backup.specs.Answers.{MayRefuse, is_target_fault};
ghost use Rattle.jb_backup.specs.Begin.{LeavesNoMore};
ghost use Rattle.jb_backup.specs.Target.{AreEmpty};

use crate::BackupError;
use jb_disk::{Disk, DiskFailed, FileId};

/// The file of a number.
fn file_of(number: u8) -> FileId
    requires { number < 6 }
    ensures { file_number result ≡ number }
{
    match number {
        0 => FileId::Jhr,
        1 => FileId::Jdt,
        2 => FileId::Jdx,
        3 => FileId::Jlr,
        4 => FileId::Jnl,
        _ => FileId::Ndt,
    }
}

/// Syncs each file.
pub(crate) fn sync_all<E: Disk>(onto: &mut E) -> Result<(), DiskFailed>
    ensures kept { OnOk result ((E.device onto.new).contents ≡ (E.device onto.old).contents) }
    ensures synced { OnOk result (IsAllSynced (E.device onto.new)) }
    ensures crash { LeavesNoMore (E.device onto.old).moments (E.device onto.new).moments }
    ensures cause { FailsBy ⊥ (E.device onto.old) (E.device onto.new) result }
{
    for number in 0..6 {
        onto.sync(file_of(number))?;
    }
    Ok(())
}

/// Sees that each file is empty.
pub(crate) fn test_empty<E: Disk>(onto: &mut E) -> Result<(), BackupError>
    ensures ok { OnOk result (ForSome (E.device onto.old).contents AreEmpty) }
    ensures refused { IfErr result (MayRefuse (E.device onto.old) (E.device onto.new)) }
    ensures kept { OnlyReads (E.device onto.old) (E.device onto.new) }
    ensures faults { CountsFaults is_target_fault (E.device onto.old) (E.device onto.new) result }
{
    for number in 0..6 {
        let file = file_of(number);
        if onto.len(file)? > 0 {
            return Err(BackupError::NotEmpty { file });
        }
    }
    Ok(())
}
