//! The opening of a base.
ghost use Rattle.std.specs.Prelude.{◌≡◌, ◌+◌, ◌*◌, ◌≤◌, false, IfOk, IfErr, IfSome, IfNone, All, AllPairs, length, map};
ghost use Rattle.std.specs.Option.{ForSome};
ghost use Rattle.jb_disk.specs.Device.{OnlyReads, CountsFaults};
ghost use Rattle.jb_disk.specs.declared.file.FileId.TheVariants.{Jhr as headers_file};
ghost use Rattle.jb_image.specs.Extents.{AreDisjoint};
ghost use Rattle.jb_state.specs.Sound.{IsSound, IsSlotWithin, AreApart};
ghost use Rattle.jb_image.specs.Answers.{AnswersFor, IsRefusedBy, OpensTo, is_open_fault};
ghost use Rattle.jb_image.specs.Laws.{HasOneStateAtMost, IsNotRefusedWhereOpen, IsRefusedOnceAtMost};
ghost use Rattle.jb_image.specs.Lengths.{AreLengths};
ghost use Rattle.jb_image.specs.Places.{fixed_in};
ghost use Rattle.jb_image.specs.Reading.{AreSlotsOf, IsLaterRefusal, IsRefusedAmongSlots, extent_seen};
ghost use Rattle.jb_image.specs.Stands.{fixed_of};
ghost use Rattle.jb_image.specs.Windows.{IsWindowOn};

use crate::OpenError;
use crate::error::ReadError;
use crate::fixed::{count_slots, read_fixed};
use crate::index::{Seen, see_slots};
use crate::lengths::Lengths;
use crate::loading::{load_slots, test_slots};
use crate::marks::read_marks;
use crate::overlap::overlap_of;
use crate::rising::load_rising;
use crate::window::Window;
use jb_base::OutOfMemory;
use jb_disk::{Disk, FileId};
use jb_record::FixedHeader;
use jb_state::{Loaded, LoadedMarks, LoadedSlots};
use std::alloc::Global;

/// The refusal that comes where the slots that were seen are whole: the next one is damaged, or two headers overlap.
fn later_refusal(alloc: Global, seen: &Seen, base: u32) -> Result<Option<OpenError>, OutOfMemory>
    requires numbers { base + length seen.now.slots.items ≤ 4_294_967_295 }
    ensures found { IfOk result (λ some.
        IfSome some (IsLaterRefusal base seen.now.slots.items seen.now.damage)) }
    ensures quiet { IfOk result (λ some. IfSome some (λ error. is_open_fault error ≡ false)) }
    ensures none { IfOk result (λ some. IfNone some (IfNone seen.now.damage
        (AllPairs AreDisjoint (map extent_seen seen.now.slots.items)))) }
    ensures whole { IfOk result (λ some. IfNone some (IfSome seen.now.damage (λ _. ⊥))) }
{
    if let Some(damage) = seen.damage {
        let number = base + seen.slots.len() as u32;
        return Ok(Some(damage.of_number(number)));
    }
    match overlap_of(alloc, seen.slots.as_slice())? {
        Some(overlap) => Ok(Some(OpenError::HeadersOverlap {
            a: base + overlap.one as u32,
            b: base + overlap.other as u32,
        })),
        None => Ok(None),
    }
}

/// The slots that the index names, in whatever order their headers stand, with the subfields of the live messages; or the
/// first test of a slot that fails. .JHR is read once, as a whole, and held until then, so that it does not matter in
/// which order its parts are looked at, nor how often.
///
/// Where a test fails nothing is kept of the slots before it, so that a base that names one long header again and again
/// is refused in no more memory than that.
fn read_mixed_slots<D: Disk>(
    alloc: Global,
    disk: &mut D,
    window: &mut Window,
    lengths: &Lengths,
    base: u32,
    count: u32,
) -> Result<LoadedSlots, OpenError>
    requires all { lengths.now.index ≡ 8 * count }
    requires numbers { base + count ≤ 4_294_967_295 }
    requires lengths { ForSome (D.device disk.old).contents (AreLengths lengths.now) }
    requires window { IsWindowOn headers_file lengths.now.headers (D.device disk.old).contents window.old }
    requires base { ForSome (D.device disk.old).contents (λ files. base ≡ (fixed_in files).base) }

    // The slots.
    ensures count_is { IfOk result (λ slots. length slots ≡ count) }
    ensures within { IfOk result (All (IsSlotWithin lengths.now.headers lengths.now.texts)) }
    ensures apart { IfOk result (AllPairs AreApart) }
    ensures named { IfOk result (λ slots.
        ForSome (D.device disk.old).contents (λ files. AreSlotsOf files slots)) }
    ensures refused { IfErr result (λ error. ForSome (D.device disk.old).contents (λ files.
        IsRefusedAmongSlots files error)) }

    // The disk is only read.
    ensures kept { OnlyReads (D.device disk.old) (D.device disk.new) }
    ensures faults { CountsFaults is_open_fault (D.device disk.old) (D.device disk.new) result }
{
    window.reach_all(disk)?;
    let seen = see_slots(alloc, disk, window, lengths, count as usize)?;
    let slots = seen.slots.as_slice();
    match later_refusal(alloc, &seen, base)? {
        Some(later) => {
            test_slots(alloc, disk, window, slots, lengths, base)?;
            Err(later)
        }
        None => load_slots(alloc, disk, window, slots, lengths, base),
    }
}

/// The slots that the index names, with the subfields of the live messages; or the first test of a slot that fails. Where
/// the headers stand in the order of the index, each part of .JHR is read once; else at most twice.
fn read_slots<D: Disk>(
    alloc: Global,
    disk: &mut D,
    window: &mut Window,
    lengths: &Lengths,
    base: u32,
    count: u32,
) -> Result<LoadedSlots, OpenError>
    requires all { lengths.now.index ≡ 8 * count }
    requires numbers { base + count ≤ 4_294_967_295 }
    requires lengths { ForSome (D.device disk.old).contents (AreLengths lengths.now) }
    requires window { IsWindowOn headers_file lengths.now.headers (D.device disk.old).contents window.old }
    requires base { ForSome (D.device disk.old).contents (λ files. base ≡ (fixed_in files).base) }

    // The slots.
    ensures count_is { IfOk result (λ slots. length slots ≡ count) }
    ensures within { IfOk result (All (IsSlotWithin lengths.now.headers lengths.now.texts)) }
    ensures apart { IfOk result (AllPairs AreApart) }
    ensures named { IfOk result (λ slots.
        ForSome (D.device disk.old).contents (λ files. AreSlotsOf files slots)) }
    ensures refused { IfErr result (λ error. ForSome (D.device disk.old).contents (λ files.
        IsRefusedAmongSlots files error)) }

    // The disk is only read.
    ensures kept { OnlyReads (D.device disk.old) (D.device disk.new) }
    ensures faults { CountsFaults is_open_fault (D.device disk.old) (D.device disk.new) result }
{
    match load_rising(alloc, disk, window, lengths, base, count)? {
        Some(slots) => Ok(slots),
        None => read_mixed_slots(alloc, disk, window, lengths, base, count),
    }
}

/// An area of these parts.
fn loaded_of(
    fixed: &FixedHeader,
    lengths: &Lengths,
    slots: LoadedSlots,
    marks: LoadedMarks,
) -> Loaded
    ensures fixed { fixed_of result ≡ fixed.now }
    ensures slots { result.slots ≡ slots }
    ensures marks { result.marks ≡ marks }
    ensures headers_len { result.headers_len ≡ lengths.now.headers }
    ensures texts_len { result.texts_len ≡ lengths.now.texts }
{
    Loaded {
        created: fixed.created,
        counter: fixed.counter,
        active: fixed.active,
        password: fixed.password,
        reserved: fixed.reserved,
        base: fixed.base,
        slots,
        marks,
        headers_len: lengths.headers,
        texts_len: lengths.texts,
    }
}

/// The area of a base whose files have these lengths.
fn read_area<D: Disk>(
    alloc: Global,
    disk: &mut D,
    lengths: &Lengths,
    limit: u32,
) -> Result<Loaded, OpenError>
    requires lengths { ForSome (D.device disk.old).contents (AreLengths lengths.now) }
    ensures sound { IfOk result (IsSound limit) }
    ensures opens { IfOk result (λ loaded.
        ForSome (D.device disk.old).contents (λ files. OpensTo limit files loaded)) }
    ensures refused { IfErr result (λ error. ForSome (D.device disk.old).contents (λ files.
        IsRefusedBy limit files error)) }

    // The disk is only read.
    ensures kept { OnlyReads (D.device disk.old) (D.device disk.new) }
    ensures faults { CountsFaults is_open_fault (D.device disk.old) (D.device disk.new) result }
{
    let mut window = Window::new(alloc, FileId::Jhr, lengths.headers);
    let fixed = read_fixed(disk, &mut window, lengths, limit)?;
    let count = count_slots(&fixed, lengths, limit)?;
    let slots = read_slots(alloc, disk, &mut window, lengths, fixed.base, count)?;
    let marks = read_marks(alloc, disk, lengths.lastread)?;
    Ok(loaded_of(&fixed, lengths, slots, marks))
}

/// The area for which the files stand, or the first test that they fail.
fn read_base<D: Disk>(alloc: Global, disk: &mut D, slots: u32) -> Result<Loaded, OpenError>
    ensures answer { ForSome (D.device disk.old).contents (λ files. AnswersFor slots files result) }
    ensures sound { IfOk result (IsSound slots) }
    ensures kept { OnlyReads (D.device disk.old) (D.device disk.new) }
    ensures faults { CountsFaults is_open_fault (D.device disk.old) (D.device disk.new) result }
{
    let lengths = Lengths::of(disk)?;
    read_area(alloc, disk, &lengths, slots)
}

/// The area for which the files stand, of at most so many slots, without its texts; or the first test that the files
/// fail, with the number and the place: see [`OpenError`]. The journal is not looked at: a change that waits there is to be
/// done before.
///
/// Four questions for a length, and the reads of a window on each of three files; no text is read. Where the headers stand
/// in the order of the index, each read of .JHR takes 65,536 bytes, and none is read twice but a record across a border; in
/// any other order the whole of .JHR is read once more, in one read, and .JDX once more.
pub fn decode<D: Disk>(alloc: Global, disk: &mut D, slots: u32) -> Result<Loaded, OpenError>
    // What the files say, where the disk tells them; a fault comes only where the count rose, and each other answer only where
    // it did not.
    ensures answer { ForSome (D.device disk.old).contents (λ files. AnswersFor slots files result) }
    ensures faults { CountsFaults is_open_fault (D.device disk.old) (D.device disk.new) result }

    // The files have no other answer.
    ensures alone { HasOneStateAtMost }
    ensures open { IsNotRefusedWhereOpen }
    ensures once { IsRefusedOnceAtMost }

    // On every disk.
    ensures sound { IfOk result (IsSound slots) }
    ensures kept { OnlyReads (D.device disk.old) (D.device disk.new) }
{
    read_base(alloc, disk, slots)
}
