//! .NDT is emptied and grows.
ghost use Rattle.std.specs.Prelude.{◌≡◌, ◌+◌, ◌≤◌, length, IfOk, OnOk};
ghost use Rattle.std.specs.Option.{ForSome};
ghost use Rattle.jb_limits.specs.declared.limits.TheConstants.{SHADOW_CEILING};
ghost use Rattle.jb_disk.specs.Device.{FailsBy, Turns};
ghost use Rattle.jb_disk.specs.Runs.{IsAllSynced};
ghost use Rattle.jb_disk.specs.declared.file.FileId.TheVariants.{Jdt as texts_file, Ndt as shadow_file};
ghost use Rattle.jb_pack.specs.Touching.{Appends, Empties, TouchesShadow};

use crate::run::Run;
use jb_disk::{Disk, DiskFailed, FileId};

/// Empties .NDT and syncs it.
pub(crate) fn empty_shadow<D: Disk>(disk: &mut D) -> Result<(), DiskFailed>
    ensures told { OnOk result (Turns Empties (D.device disk.old).contents (D.device disk.new).contents) }
    ensures durable { OnOk result (IsAllSynced (D.device disk.old) → IsAllSynced (D.device disk.new)) }
    ensures kept { TouchesShadow (D.device disk.old) (D.device disk.new) }
    ensures cause { FailsBy ⊥ (D.device disk.old) (D.device disk.new) result }
{
    disk.set_len(FileId::Ndt, 0)?;
    disk.sync(FileId::Ndt)
}

/// Copies a part of .JDT behind the `end` bytes of .NDT, through the buffer, and answers where that ends then.
pub(crate) fn append<D: Disk>(
    disk: &mut D,
    run: Run,
    end: u32,
    buffer: &mut [u8],
) -> Result<u32, DiskFailed>
    requires within { ForSome (D.device disk.old).contents (λ files.
        run.at + run.len ≤ length (files texts_file)) }
    requires end { ForSome (D.device disk.old).contents (λ files. length (files shadow_file) ≡ end) }
    requires fits { end + run.len ≤ SHADOW_CEILING }
    requires buffer { run.len ≤ length buffer.old }
    ensures told { OnOk result (Turns (Appends run) (D.device disk.old).contents
        (D.device disk.new).contents) }
    ensures next { IfOk result (λ next. next ≡ end + run.len) }
    ensures kept { TouchesShadow (D.device disk.old) (D.device disk.new) }
    ensures cause { FailsBy ⊥ (D.device disk.old) (D.device disk.new) result }
{
    let bytes = &mut buffer[..run.len as usize];
    disk.read_at(FileId::Jdt, run.at as u64, bytes)?;
    disk.set_len(FileId::Ndt, (end + run.len) as u64)?;
    disk.write_at(FileId::Ndt, end as u64, bytes)?;
    Ok(end + run.len)
}
