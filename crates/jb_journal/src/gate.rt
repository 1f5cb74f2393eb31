//! The journal's first two bytes: the gate, and the version.
ghost use Rattle.std.specs.Prelude.{◌≡◌, ◌↔◌, IsTrue, ◌∷◌, [], IfOk, OnOk};
ghost use Rattle.std.specs.Option.{ForSome, option_map};
ghost use Rattle.jb_disk.specs.declared.file.FileId.TheVariants.{Jnl};
ghost use Rattle.jb_disk.specs.Device.{OnlyReads, FailsBy};
ghost use Rattle.jb_disk.specs.Files.{Files, written};
ghost use Rattle.jb_disk.specs.Runs.{LeavesNow, Keeps};
ghost use Rattle.jb_disk.specs.Gate.{IsGateOpen};
ghost use Rattle.jb_journal.specs.Stages.{IsAtGate};
ghost use Rattle.jb_journal.specs.Coming.{ComeBy};
ghost use Rattle.jb_journal.specs.Opening.{WhereTold};
ghost use Rattle.jb_journal.specs.Writing.{Reaches, WidensFor};

use jb_disk::{Disk, DiskFailed, FileId, Version};

/// Writes the gate byte and syncs it.
pub(crate) fn set_gate<D: Disk>(disk: &mut D, gate: u8) -> Result<(), DiskFailed>
    requires { Reaches (D.device disk.old).contents Jnl 1 }
    ensures told { OnOk result ((D.device disk.new).contents ≡ option_map (written Jnl 0 (gate ∷
        [])) (D.device disk.old).contents) }
    ensures durable { OnOk result (ForSome (D.device disk.old).contents (λ files. LeavesNow (λ left.
        left Jnl ≡ written Jnl 0 (gate ∷ []) files Jnl) (D.device disk.new).moments)) }
    ensures wide { WhereTold (D.device disk.old).moments (WidensFor result
        (D.device disk.old).moments (D.device disk.new).moments) }
    ensures keeps { (base : Files) → Keeps (IsAtGate base) (D.device disk.old) (D.device disk.new) }
    ensures come { OnOk result (ComeBy [] (Jnl ∷ []) (D.device disk.old).moments
        (D.device disk.new).moments) }
    ensures cause { FailsBy ⊥ (D.device disk.old) (D.device disk.new) result }
{
    disk.write_at(FileId::Jnl, 0, &[gate])?;
    disk.sync(FileId::Jnl)
}

/// Whether the gate is open: a change then waits in the journal, which the next recovery does. It makes two calls of the disk, or one
/// where the journal has at most 16 bytes.
pub fn is_gate_open<D: Disk>(disk: &mut D) -> Result<bool, DiskFailed>
    ensures found { IfOk result (λ is_open. ForSome (D.device disk.old).contents (λ files.
        IsTrue is_open ↔ IsGateOpen files)) }
    ensures kept { OnlyReads (D.device disk.old) (D.device disk.new) }
    ensures cause { FailsBy ⊥ (D.device disk.old) (D.device disk.new) result }
{
    if disk.len(FileId::Jnl)? <= 16 {
        return Ok(false);
    }
    let mut head = [0; 2];
    disk.read_at(FileId::Jnl, 0, &mut head)?;
    Ok(head[0] == Version::told_by(head[1]).number())
}
