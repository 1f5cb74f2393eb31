//! The second look at the slots: their tests in order, and their loading.
ghost use Rattle.std.specs.Prelude.{◌≡◌, ◌+◌, ◌<◌, ◌≤◌, ℕ, IfOk, IfErr, IfSome, IfNone, OnOk, All, length};
ghost use Rattle.std.specs.Option.{ForSome};
ghost use Rattle.jb_disk.specs.Device.{OnlyReads, CountsFaults};
ghost use Rattle.jb_disk.specs.declared.file.FileId.TheVariants.{Jhr as headers_file};
ghost use Rattle.jb_record.specs.declared.index.IndexRecord.{IndexRecord};
ghost use Rattle.jb_image.specs.Answers.{IsDamaged, is_read_fault, is_open_fault};
ghost use Rattle.jb_image.specs.Lengths.{AreLengths};
ghost use Rattle.jb_image.specs.Places.{entry_in, fixed_in};
ghost use Rattle.jb_image.specs.Reading.{AreLoadedFrom, AreSeen, AreSlotsOf, AreWholeAt, IsRefusedBySlot, IsSeenAs, IsSeenWithin};
ghost use Rattle.jb_image.specs.Tests.{IsWholeSlot};
ghost use Rattle.jb_image.specs.Windows.{IsWindowOn};

use crate::OpenError;
use crate::error::{Damage, ReadError};
use crate::lengths::Lengths;
use crate::message::load_slot;
use crate::seen::SeenSlot;
use crate::window::Window;
use jb_disk::Disk;
use jb_state::LoadedSlots;
use std::alloc::Global;
use std::collections::BTreeSet;

/// What is wrong with the subfields or the place of the text of a slot that was seen, if something is. A header that is
/// among those at which slots are whole is not tested again, and else it comes to them. At most one device read.
fn test_slot<D: Disk>(
    alloc: Global,
    disk: &mut D,
    window: &mut Window,
    slot: &SeenSlot,
    lengths: &Lengths,
    whole: &mut BTreeSet<u32>,
) -> Result<Option<Damage>, ReadError>
    requires lengths { ForSome (D.device disk.old).contents (AreLengths lengths.now) }
    requires window { IsWindowOn headers_file lengths.now.headers (D.device disk.old).contents window.old }
    requires within { IsSeenWithin lengths.now.headers slot.now }
    requires whole { ForSome (D.device disk.old).contents (λ files. AreWholeAt files whole.old) }

    // Nothing, or the first test that it fails.
    ensures passed { IfOk result (λ some. IfNone some (ForSome (D.device disk.old).contents (λ files.
        (entry : IndexRecord) → IsSeenAs files entry slot.now → IsWholeSlot files entry))) }
    ensures damaged { IfOk result (λ some.
        IfSome some (λ damage. ForSome (D.device disk.old).contents (λ files.
        (entry : IndexRecord) → IsSeenAs files entry slot.now → IsDamaged files entry damage))) }
    ensures whole { ForSome (D.device disk.old).contents (λ files.
        (entry : IndexRecord) → IsSeenAs files entry slot.now → AreWholeAt files whole.new) }

    // The disk is only read.
    ensures window { IsWindowOn headers_file lengths.now.headers (D.device disk.new).contents window.new }
    ensures kept { OnlyReads (D.device disk.old) (D.device disk.new) }
    ensures faults { CountsFaults is_read_fault (D.device disk.old) (D.device disk.new) result }
{
    let place = slot.named();
    if whole.contains(&place) {
        return Ok(None);
    }
    match load_slot(alloc, disk, window, slot, lengths)? {
        Ok(_loaded) => {
            whole.insert(place)?;
            Ok(None)
        }
        Err(damage) => Ok(Some(damage)),
    }
}

/// Tests the subfields and the place of the text of each slot that was seen, once a header, however many slots name it, and
/// keeps nothing of them. At most one device read a slot.
pub(crate) fn test_slots<D: Disk>(
    alloc: Global,
    disk: &mut D,
    window: &mut Window,
    seen: &[SeenSlot],
    lengths: &Lengths,
    base: u32,
) -> Result<(), OpenError>
    requires lengths { ForSome (D.device disk.old).contents (AreLengths lengths.now) }
    requires window { IsWindowOn headers_file lengths.now.headers (D.device disk.old).contents window.old }
    requires base { ForSome (D.device disk.old).contents (λ files. base ≡ (fixed_in files).base) }
    requires seen { ForSome (D.device disk.old).contents (λ files. AreSeen files seen.now) }
    requires within { All (IsSeenWithin lengths.now.headers) seen.now }
    requires numbers { base + length seen.now ≤ 4_294_967_295 }

    // All of them are whole, or this one is the first that is damaged.
    ensures passed { OnOk result (ForSome (D.device disk.old).contents (λ files.
        (k : ℕ) → k < length seen.now → IsWholeSlot files (entry_in files k))) }
    ensures refused { IfErr result (λ error. ForSome (D.device disk.old).contents (λ files.
        IsRefusedBySlot files error)) }

    // The disk is only read.
    ensures kept { OnlyReads (D.device disk.old) (D.device disk.new) }
    ensures faults { CountsFaults is_open_fault (D.device disk.old) (D.device disk.new) result }
{
    let mut whole = BTreeSet::new(alloc);
    let mut number = base;
    for slot in seen {
        match test_slot(alloc, disk, window, slot, lengths, &mut whole)? {
            None => number += 1,
            Some(damage) => return Err(damage.of_number(number)),
        }
    }
    Ok(())
}

/// The slots that were seen, with the subfields of the live messages; or the first of them that is damaged. At most one
/// device read a slot.
pub(crate) fn load_slots<D: Disk>(
    alloc: Global,
    disk: &mut D,
    window: &mut Window,
    seen: &[SeenSlot],
    lengths: &Lengths,
    base: u32,
) -> Result<LoadedSlots, OpenError>
    requires lengths { ForSome (D.device disk.old).contents (AreLengths lengths.now) }
    requires window { IsWindowOn headers_file lengths.now.headers (D.device disk.old).contents window.old }
    requires base { ForSome (D.device disk.old).contents (λ files. base ≡ (fixed_in files).base) }
    requires seen { ForSome (D.device disk.old).contents (λ files. AreSeen files seen.now) }
    requires within { All (IsSeenWithin lengths.now.headers) seen.now }
    requires numbers { base + length seen.now ≤ 4_294_967_295 }

    // All of them, or the first that is damaged.
    ensures found { IfOk result (AreLoadedFrom lengths.now.texts seen.now) }
    ensures named { IfOk result (λ slots.
        ForSome (D.device disk.old).contents (λ files. AreSlotsOf files slots)) }
    ensures refused { IfErr result (λ error. ForSome (D.device disk.old).contents (λ files.
        IsRefusedBySlot files error)) }

    // The disk is only read.
    ensures kept { OnlyReads (D.device disk.old) (D.device disk.new) }
    ensures faults { CountsFaults is_open_fault (D.device disk.old) (D.device disk.new) result }
{
    let mut slots = LoadedSlots::new(alloc)?;
    let mut number = base;
    for slot in seen {
        match load_slot(alloc, disk, window, slot, lengths)? {
            Ok(loaded) => slots.push(loaded)?,
            Err(damage) => return Err(damage.of_number(number)),
        }
        number += 1;
    }
    Ok(slots)
}
