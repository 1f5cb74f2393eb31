//! An area is opened over files that were read.
ghost use Rattle.std.specs.Prelude.{◌≡◌, ◌≤◌, ℕ, List, length, IfErr, IfOk};
ghost use Rattle.std.specs.Option.{ForSome};
ghost use Rattle.jb_limits.specs.declared.limits.TheConstants.{MOST_ADDRESS_BYTES, MOST_SLOTS};
ghost use Rattle.jb_disk.specs.Runs.{IsAllSynced};
ghost use Rattle.jb_disk.specs.declared.file.FileId.TheVariants.{Jdt as texts_file};
ghost use Rattle.jb_state.specs.Sound.{IsSound};
ghost use Rattle.jb_change.specs.Ready.{HasRoomInAll};
ghost use Rattle.jb_decide.specs.Holds.{AreTexts};
ghost use Rattle.jb_area.specs.Area.{commits_of, device_of, loaded_of, packs_of, rules_of, IsResting};
ghost use Rattle.jb_area.specs.Calls.{HasRest};
ghost use Rattle.jb_area.specs.Holds.{IsAtRest};

use crate::OpenArea;
use crate::stage::Stage;
use jb_base::{AreaRules, OutOfMemory};
use jb_disk::{Disk, Redo};
use jb_held::HeldArea;
use jb_state::Loaded;
use std::alloc::Global;

/// A redo with room for each change that takes no memory.
fn small_redo(alloc: Global) -> Result<Redo, OutOfMemory>
    ensures { IfOk result HasRoomInAll }
{
    let mut redo = Redo::new(alloc);
    redo.reserve(1, 4, 32)?;
    Ok(redo)
}

impl<D: Disk> OpenArea<D> {
    /// An open area over the files that were loaded so, by these rules. It makes no device call. `Err` hands the disk back, for
    /// want of memory alone.
    pub fn from_loaded(
        alloc: Global,
        disk: D,
        loaded: Loaded,
        rules: AreaRules,
    ) -> Result<OpenArea<D>, D>
        requires few_slots { rules.slots ≤ MOST_SLOTS }
        requires address { length rules.address ≤ MOST_ADDRESS_BYTES }
        requires sound { IsSound rules.slots loaded }
        requires rests { ForSome (D.device disk).contents (λ files.
            IsAtRest loaded (files texts_file) files) }
        requires synced { IsAllSynced (D.device disk) }

        // At rest, with what was loaded, and nothing is committed or packed yet.
        ensures rests { IfOk result (λ area. (texts : List ℕ)
            → AreTexts loaded texts (D.device disk).contents → IsResting D.device area texts) }
        ensures rest { IfOk result (HasRest D.device) }
        ensures loaded { IfOk result (λ area. loaded_of area ≡ loaded) }
        ensures rules { IfOk result (λ area. rules_of area ≡ rules) }
        ensures commits { IfOk result (λ area. commits_of area ≡ 0) }
        ensures packs { IfOk result (λ area. packs_of area ≡ 0) }
        ensures device { IfOk result (λ area. device_of D.device area ≡ D.device disk) }

        // Or the disk, as it was.
        ensures back { IfErr result (λ back. back ≡ disk) }
    {
        let Ok(held) = HeldArea::of(alloc, loaded) else {
            return Err(disk);
        };
        let Ok(redo) = small_redo(alloc) else {
            return Err(disk);
        };
        Ok(OpenArea {
            disk,
            rules,
            held,
            redo,
            commits: 0,
            packs: 0,
            large: None,
            packer: None,
            stage: Stage::Resting,
        })
    }
}
