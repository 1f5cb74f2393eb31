//! The first byte of the headers: a wrong one at the beginning, and the signature's at the end.
ghost use Rattle.std.specs.Prelude.{◌≡◌, [], ◌∷◌, OnOk};
ghost use Rattle.std.specs.Option.{ForSome, option_map};
ghost use Rattle.jb_disk.specs.declared.file.FileId.TheVariants.{Jhr};
ghost use Rattle.jb_disk.specs.Device.{FailsBy};
ghost use Rattle.jb_disk.specs.Files.{Files, written};
ghost use Rattle.jb_disk.specs.Runs.{LeavesNow, Keeps, Shows};
ghost use Rattle.jb_backup.specs.Target.{IsTiny, IsUnsigned, IsAllButSigned, Reaches};

use jb_disk::{Disk, DiskFailed, FileId};

/// The headers become one byte, which is not the signature's.
pub(crate) fn mark_unsigned<E: Disk>(onto: &mut E) -> Result<(), DiskFailed>
    ensures keeps { Keeps IsTiny (E.device onto.old) (E.device onto.new) }
    ensures ok { OnOk result
        (Shows IsTiny (E.device onto.old) → Shows IsUnsigned (E.device onto.new)) }
    ensures cause { FailsBy ⊥ (E.device onto.old) (E.device onto.new) result }
{
    onto.set_len(FileId::Jhr, 1)?;
    onto.write_at(FileId::Jhr, 0, &[0])?;
    onto.sync(FileId::Jhr)
}

/// The signature's first byte is written and synced.
pub(crate) fn sign<E: Disk>(onto: &mut E) -> Result<(), DiskFailed>
    requires { Reaches (E.device onto.old).contents Jhr 1 }
    ensures keeps { (good : Files)
        → Keeps (IsAllButSigned good) (E.device onto.old) (E.device onto.new) }
    ensures told { OnOk result ((E.device onto.new).contents
        ≡ option_map (written Jhr 0 (74 ∷ [])) (E.device onto.old).contents) }
    ensures durable { OnOk result (ForSome (E.device onto.old).contents (λ files. LeavesNow (λ left.
        left Jhr ≡ written Jhr 0 (74 ∷ []) files Jhr) (E.device onto.new).moments)) }
    ensures cause { FailsBy ⊥ (E.device onto.old) (E.device onto.new) result }
{
    onto.write_at(FileId::Jhr, 0, &[0x4A])?;
    onto.sync(FileId::Jhr)
}
