//! The loading of a base whose headers stand in the order of its index.
ghost use Rattle.std.specs.Prelude.{◌≡◌, ◌+◌, ◌*◌, ◌≤◌, IfOk, IfErr, IfSome, All, AllPairs, length};
ghost use Rattle.std.specs.Option.{ForSome};
ghost use Rattle.jb_disk.specs.Device.{OnlyReads, CountsFaults};
ghost use Rattle.jb_disk.specs.declared.file.FileId.TheVariants.{Jhr as headers_file};
ghost use Rattle.jb_state.specs.Sound.{AreApart, IsSlotWithin};
ghost use Rattle.jb_image.specs.Answers.{is_open_fault};
ghost use Rattle.jb_image.specs.Lengths.{AreLengths};
ghost use Rattle.jb_image.specs.Places.{fixed_in};
ghost use Rattle.jb_image.specs.Reading.{AreSlotsOf, IsRefusedBySlot};
ghost use Rattle.jb_image.specs.Windows.{IsWindowOn};

use crate::OpenError;
use crate::header::see_slot;
use crate::index::read_entry;
use crate::lengths::Lengths;
use crate::message::load_slot;
use crate::window::Window;
use jb_disk::{Disk, FileId};
use jb_state::LoadedSlots;
use std::alloc::Global;

/// The slots that the index names, with the subfields of the live messages, where each header stands behind those of the
/// slots before it, and nothing where one does not; or the first slot that is damaged.
pub(crate) fn load_rising<D: Disk>(
    alloc: Global,
    disk: &mut D,
    window: &mut Window,
    lengths: &Lengths,
    base: u32,
    count: u32,
) -> Result<Option<LoadedSlots>, OpenError>
    requires all { lengths.now.index ≡ 8 * count }
    requires numbers { base + count ≤ 4_294_967_295 }
    requires lengths { ForSome (D.device disk.old).contents (AreLengths lengths.now) }
    requires window { IsWindowOn headers_file lengths.now.headers (D.device disk.old).contents window.old }
    requires base { ForSome (D.device disk.old).contents (λ files. base ≡ (fixed_in files).base) }

    // The slots, where they rise.
    ensures count_is { IfOk result (λ some. IfSome some (λ slots. length slots ≡ count)) }
    ensures within { IfOk result (λ some.
        IfSome some (All (IsSlotWithin lengths.now.headers lengths.now.texts))) }
    ensures apart { IfOk result (λ some. IfSome some (AllPairs AreApart)) }
    ensures named { IfOk result (λ some. IfSome some (λ slots. ForSome (D.device disk.old).contents (λ files.
        AreSlotsOf files slots))) }
    ensures refused { IfErr result (λ error. ForSome (D.device disk.old).contents (λ files.
        IsRefusedBySlot files error)) }

    // The disk is only read.
    ensures window { IsWindowOn headers_file lengths.now.headers (D.device disk.new).contents window.new }
    ensures kept { OnlyReads (D.device disk.old) (D.device disk.new) }
    ensures faults { CountsFaults is_open_fault (D.device disk.old) (D.device disk.new) result }
{
    let mut slots = LoadedSlots::new(alloc)?;
    let mut index = Window::new(alloc, FileId::Jdx, lengths.index);
    let mut end = 0;
    for k in 0..count {
        let entry = read_entry(disk, &mut index, lengths.index, k as usize)?;
        let seen = match see_slot(disk, window, &entry, lengths)? {
            Ok(seen) => seen,
            Err(damage) => return Err(damage.of_number(base + k)),
        };
        let Some(behind) = seen.end_behind(end) else {
            return Ok(None);
        };
        match load_slot(alloc, disk, window, &seen, lengths)? {
            Ok(loaded) => slots.push(loaded)?,
            Err(damage) => return Err(damage.of_number(base + k)),
        }
        end = behind;
    }
    Ok(Some(slots))
}
