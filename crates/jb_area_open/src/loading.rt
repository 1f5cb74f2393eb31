//! The files of an area are recovered and read, and its journal is prepared.
ghost use Rattle.std.specs.Prelude.{◌≡◌, ◌≤◌, IfErr, IfOk, OnOk};
ghost use Rattle.std.specs.Option.{ForSome};
ghost use Rattle.jb_area.specs.Holds.{IsAtRest};
ghost use Rattle.jb_area_open.specs.Opening.{IsRecovered, KeepsOpening, OpensFirmly, Refuses, is_opening_fault};
ghost use Rattle.jb_disk.specs.Device.{TellsAlike, CountsFaults};
ghost use Rattle.jb_disk.specs.Runs.{IsAllSynced};
ghost use Rattle.jb_disk.specs.declared.file.FileId.TheVariants.{Jdt as texts_file};
ghost use Rattle.jb_state.specs.Sound.{IsSound};

use crate::OpeningError;
use jb_disk::Disk;
use jb_image::decode;
use jb_journal::{prepare, recover};
use jb_state::Loaded;
use std::alloc::Global;

/// Recovers the base, reads it, and prepares its journal.
pub(crate) fn load<D: Disk>(alloc: Global, disk: &mut D, slots: u32) -> Result<Loaded, OpeningError>
    // What the files hold then, at rest and synced.
    ensures sound { IfOk result (IsSound slots) }
    ensures rests { IfOk result (λ loaded. ForSome (D.device disk.new).contents (λ files.
        IsAtRest loaded (files texts_file) files)) }
    ensures synced { OnOk result (IsAllSynced (D.device disk.new)) }
    ensures recovered { OnOk result (ForSome (D.device disk.old).contents (λ was.
        IsRecovered was (D.device disk.new))) }

    // Why it is refused.
    ensures refused { IfErr result (Refuses slots (D.device disk.old) (D.device disk.new)) }
    ensures faults { CountsFaults is_opening_fault (D.device disk.old) (D.device disk.new) result }

    // A crash at any moment, and that the disk tells as before.
    ensures crash { KeepsOpening (D.device disk.old) (D.device disk.new) }
    ensures firm { OpensFirmly (D.device disk.old) (D.device disk.new) }
    ensures alike { TellsAlike (D.device disk.old) (D.device disk.new) }
{
    let _ = recover(disk)?;
    let loaded = decode(alloc, disk, slots)?;
    prepare(disk)?;
    Ok(loaded)
}
