//! Texts are copied into .NDT, for a pack that comes later.
ghost use Rattle.std.specs.Prelude.{◌≡◌, ◌≤◌, ℕ, List, [], Option, Some, IfErr, IfOk, OnErr, OnOk, length};
ghost use Rattle.std.specs.Option.{ForSome};
ghost use Rattle.jb_limits.specs.declared.limits.TheConstants.{MOST_SLOTS, TEXTS_CEILING};
ghost use Rattle.jb_disk.specs.Device.{TellsAlike, CountsFaults, is_disk_fault};
ghost use Rattle.jb_disk.specs.Runs.{IsAllSynced, LeavesOnly};
ghost use Rattle.jb_disk.specs.declared.file.FileId.TheVariants.{Jdt as texts_file, Ndt as shadow_file};
ghost use Rattle.jb_journal.specs.declared.stopped.Stopped.TheVariants.{Early};
ghost use Rattle.jb_state.specs.Sound.{IsSound};
ghost use Rattle.jb_state.specs.declared.loaded.Loaded.{Loaded};
ghost use Rattle.jb_pack.specs.Copying.{is_pack_fault};
ghost use Rattle.jb_state.specs.Packed.{texts_size};
ghost use Rattle.jb_pack.specs.Shadow.{HasCopies};
ghost use Rattle.jb_pack.specs.Touching.{IsUntouched, TouchesShadow};
ghost use Rattle.jb_decide.specs.Holds.{HoldsCopies};
ghost use Rattle.jb_area.specs.Area.{copied_after};
ghost use Rattle.jb_area.specs.Commits.{IsCopyingAs, IsSettledAs};
ghost use Rattle.jb_area.specs.Copying.{HasCopiedSome, UnlessFault, begun_of};
ghost use Rattle.jb_area.specs.Holds.{Opens};

use jb_disk::{Disk, DiskFailed, FileId};
use jb_journal::Stopped;
use jb_pack::{PackError, Packer};
use jb_state::{Change, Loaded};
use std::alloc::Global;
use std::mem;

/// The packer that was kept; where there was none, a new one, with an empty .NDT.
fn begun<D: Disk>(
    alloc: Global,
    disk: &mut D,
    kept: Option<Packer>,
    loaded: &Loaded,
) -> Result<Packer, PackError>
    requires has { ForSome (D.device disk.old).contents (HoldsCopies kept) }
    ensures begun { IfOk result (λ packer. packer ≡ begun_of kept) }
    ensures has { IfOk result (λ packer. ForSome (D.device disk.new).contents (HasCopies packer)) }
    ensures durable { OnOk result (IsAllSynced (D.device disk.old) → IsAllSynced (D.device disk.new)) }
    ensures kept { TouchesShadow (D.device disk.old) (D.device disk.new) }
    ensures unchanged { IfErr result (IsUntouched (D.device disk.old) (D.device disk.new)) }
    ensures faults { CountsFaults is_pack_fault (D.device disk.old) (D.device disk.new) result }
{
    match kept {
        Some(packer) => Ok(packer),
        None => Packer::begin(alloc, disk, loaded),
    }
}

/// Copies some of the texts that are left with this packer, which is kept then. Answers whether a text is left.
fn copy_with<D: Disk>(
    alloc: Global,
    disk: &mut D,
    packer: Packer,
    kept: &mut Option<Packer>,
    loaded: &Loaded,
    budget: u32,
) -> Result<bool, PackError>
    requires sound { IsSound MOST_SLOTS loaded.now }
    requires told { ForSome (D.device disk.old).contents (λ files.
        length (files texts_file) ≡ loaded.now.texts_len) }
    requires fits { texts_size loaded.now.slots ≤ TEXTS_CEILING }
    requires has { ForSome (D.device disk.old).contents (HasCopies packer) }
    ensures copied { IfOk result (HasCopiedSome budget loaded.now.slots (Some packer) kept.new) }
    ensures has { UnlessFault result (ForSome (D.device disk.new).contents (HoldsCopies kept.new)) }
    ensures durable { UnlessFault result (IsAllSynced (D.device disk.old) → IsAllSynced (D.device disk.new)) }
    ensures touches { TouchesShadow (D.device disk.old) (D.device disk.new) }
    ensures faults { CountsFaults is_pack_fault (D.device disk.old) (D.device disk.new) result }
{
    let mut packer = packer;
    let more = packer.some(alloc, disk, loaded, budget);
    *kept = Some(packer);
    more
}

/// Copies some of the texts that are left, with the packer that is kept or with a new one, which is kept then. Answers whether
/// a text is left.
pub(crate) fn copy_some<D: Disk>(
    alloc: Global,
    disk: &mut D,
    kept: &mut Option<Packer>,
    loaded: &Loaded,
    budget: u32,
) -> Result<bool, PackError>
    requires sound { IsSound MOST_SLOTS loaded.now }
    requires told { ForSome (D.device disk.old).contents (λ files.
        length (files texts_file) ≡ loaded.now.texts_len) }
    requires fits { texts_size loaded.now.slots ≤ TEXTS_CEILING }
    requires has { ForSome (D.device disk.old).contents (HoldsCopies kept.old) }
    ensures copied { IfOk result (HasCopiedSome budget loaded.now.slots kept.old kept.new) }

    // But after a fault the files have what is copied, and are synced if they were so.
    ensures has { UnlessFault result (ForSome (D.device disk.new).contents (HoldsCopies kept.new)) }
    ensures durable { UnlessFault result (IsAllSynced (D.device disk.old) → IsAllSynced (D.device disk.new)) }
    ensures touches { TouchesShadow (D.device disk.old) (D.device disk.new) }
    ensures faults { CountsFaults is_pack_fault (D.device disk.old) (D.device disk.new) result }
{
    match begun(alloc, disk, mem::replace(kept, None), loaded) {
        Ok(packer) => copy_with(alloc, disk, packer, kept, loaded, budget),
        Err(error) => Err(error),
    }
}

/// Empties .NDT and syncs it, after a copying was stopped: then nothing is left in it that a failed sync may have lost.
pub(crate) fn clear_copies<D: Disk>(disk: &mut D) -> Result<(), Stopped>
    ensures settled { OnOk result ((loaded : Loaded) (texts : List ℕ) → IsCopyingAs loaded texts
        (D.device disk.old) → IsSettledAs loaded texts (D.device disk.new)) }
    ensures empty { OnOk result (ForSome (D.device disk.new).contents (λ files. files shadow_file ≡ [])) }
    ensures still { OnErr result ((loaded : Loaded) (texts : List ℕ) → IsCopyingAs loaded texts
        (D.device disk.old) → IsCopyingAs loaded texts (D.device disk.new)) }
    ensures crash { (loaded : Loaded) (texts : List ℕ) → IsCopyingAs loaded texts (D.device disk.old)
        → ForSome (D.device disk.old).contents (λ _.
        LeavesOnly (D.device disk.old) (D.device disk.new) (Opens loaded texts)) }
    ensures early { IfErr result (λ stopped. stopped ≡ Early) }
    ensures faults { CountsFaults is_disk_fault (D.device disk.old) (D.device disk.new) result }
    ensures alike { TellsAlike (D.device disk.old) (D.device disk.new) }
{
    match disk.set_len(FileId::Ndt, 0) {
        Ok(()) => match disk.sync(FileId::Ndt) {
            Ok(()) => Ok(()),
            Err(DiskFailed) => Err(Stopped::Early),
        },
        Err(DiskFailed) => Err(Stopped::Early),
    }
}

/// Keeps the packer once the change is done, but after a pack, since its copies are of no use then.
pub(crate) fn keep_after(change: &Change, kept: &mut Option<Packer>)
    ensures { kept.new ≡ copied_after change.now kept.old }
{
    match change {
        Change::Packed { .. } => *kept = None,
        _ => {}
    }
}
