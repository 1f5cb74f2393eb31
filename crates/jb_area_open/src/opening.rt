//! The opening of an area.
ghost use Rattle.std.specs.Prelude.{◌≡◌, ◌≤◌, IfErr, IfOk, List, ℕ, length};
ghost use Rattle.std.specs.Option.{ForSome};
ghost use Rattle.jb_area.specs.Area.{IsResting, commits_of, device_of, loaded_of, rules_of};
ghost use Rattle.jb_area.specs.Calls.{HasRest};
ghost use Rattle.jb_area_open.specs.Opening.{IsOpenAt, IsRecovered, KeepsOpening, OpensFirmly, Refuses, opened_device, is_opening_fault};
ghost use Rattle.jb_limits.specs.declared.limits.TheConstants.{MOST_ADDRESS_BYTES, MOST_SLOTS};
ghost use Rattle.jb_decide.specs.Holds.{AreTexts};
ghost use Rattle.jb_disk.specs.Device.{CountsFaults, TellsAlike};
ghost use Rattle.jb_journal.specs.Recover.{IsGrowthSafe};

use crate::OpeningError;
use crate::loading::load;
use jb_area::OpenArea;
use jb_base::AreaRules;
use jb_disk::Disk;
use jb_image::OpenError;
use std::alloc::Global;

/// Opens an area over its six files: makes good what a crash has left, reads the files, gives a journal of version 1, or a
/// short one, the head of version 2, and takes the room that a kill and a mark need. Its commits are numbered from 1. A
/// refusal hands the disk back.
///
/// `BadJournal` comes before all others, and exactly where the gate is open and the journal holds no record. The others are
/// those of `decode` in its order, over the files as they are once they are recovered; of an area with more slots than the
/// rules allow `TooManySlots`. A fault may come at any call, want of memory at any behind the recovery.
pub fn open_area<D: Disk>(
    alloc: Global,
    disk: D,
    rules: AreaRules,
) -> Result<OpenArea<D>, (D, OpeningError)>
    requires few_slots { rules.slots ≤ MOST_SLOTS }
    requires address { length rules.address ≤ MOST_ADDRESS_BYTES }

    // Open by these rules, at the area to which the files open; in any case at rest over the recovered files, whose .JDT has
    // the texts.
    ensures opened { IfOk result (λ area. ForSome (D.device disk).contents (λ was. IsGrowthSafe was
        → IsOpenAt D.device was area)) }
    ensures recovered { IfOk result (λ area. ForSome (D.device disk).contents (λ was.
        IsRecovered was (device_of D.device area))) }
    ensures rests { IfOk result (λ area. (texts : List ℕ)
        → AreTexts (loaded_of area) texts (device_of D.device area).contents
        → IsResting D.device area texts) }
    ensures rest { IfOk result (HasRest D.device) }
    ensures rules { IfOk result (λ area. rules_of area ≡ rules) }
    ensures commits { IfOk result (λ area. commits_of area ≡ 0) }

    // Refused: for the first thing that is wrong, or for a fault that the disk counted; nothing else hides one.
    ensures refused { IfErr result (λ back. Refuses rules.slots (D.device disk) (D.device back.0) back.1) }

    // Either way: a crash at any moment leaves files that open to exactly what some open to that it might have left at the
    // start, and once the first syncs are done, to what those open to that were read at the start. A disk that tells its files
    // goes on telling them, and one that tells nothing goes on so.
    ensures crash { KeepsOpening (D.device disk) (opened_device D.device result) }
    ensures firm { OpensFirmly (D.device disk) (opened_device D.device result) }
    ensures faults { CountsFaults (λ back.
        is_opening_fault back.1) (D.device disk) (opened_device D.device result) result }
    ensures alike { TellsAlike (D.device disk) (opened_device D.device result) }
{
    let mut disk = disk;
    match load(alloc, &mut disk, rules.slots) {
        Ok(loaded) => match OpenArea::from_loaded(alloc, disk, loaded, rules) {
            Ok(area) => Ok(area),
            Err(disk) => Err((disk, OpeningError::Base(OpenError::OutOfMemory))),
        },
        Err(error) => Err((disk, error)),
    }
}
