//! The change that packs an area.
ghost use Rattle.std.specs.Prelude.{◌≡◌, ◌+◌, ◌-◌, ◌≤◌, ℕ, [], IfErr, IfOk, List, OnOk, length};
ghost use Rattle.std.specs.Option.{ForSome};
ghost use Rattle.jb_limits.specs.declared.limits.TheConstants.{HEADERS_CEILING, MOST_SLOTS, TEXTS_CEILING};
ghost use Rattle.jb_redo.specs.Changes.{KeepsRoom};
ghost use Rattle.jb_disk.specs.Device.{OnlyReads, CountsFaults};
ghost use Rattle.jb_disk.specs.declared.file.FileId.TheVariants.{Jdt as texts_file};
ghost use Rattle.jb_state.specs.Plan.{plan_of};
ghost use Rattle.jb_state.specs.LiveSlots.{linkables};
ghost use Rattle.jb_state.specs.Sound.{IsSound};
ghost use Rattle.jb_state.specs.State.{state_of};
ghost use Rattle.jb_pack.specs.Copying.{is_pack_fault};
ghost use Rattle.jb_state.specs.Packed.{kept_slots, new_base, texts_size};
ghost use Rattle.jb_pack.specs.Plan.{AnswersPack, AreSizesOf, IsPackOf, IsPackingOf, PlansPack, PutsBase, lengths_with};

use crate::files::put_area;
use crate::sizes::{Sizes, first_live, sizes_of};
use crate::texts::put_texts;
use crate::{PackError, Packing};
use jb_base::{OutOfMemory, TEXTS_CEILING};
use jb_disk::{Disk, FileId, Length, Redo};
use jb_record::{FIXED_HEADER_BYTES, INDEX_RECORD_BYTES};
use jb_state::{Links, Loaded, LoadedSlot};
use std::alloc::Global;

/// Puts the new lengths of .JHR, .JDT and .JDX, and takes the room for all pieces at once: a header each slot at most, a
/// part of the texts each slot at most, and a few more. The pieces will hold so many bytes of the texts.
fn put_lengths(redo: &mut Redo, sizes: Sizes, slots: usize, held: u64) -> Result<(), OutOfMemory>
    requires no_lengths { redo.old.lengths ≡ [] }
    requires no_pieces { redo.old.pieces ≡ [] }
    requires headers { 1024 + sizes.headers ≤ HEADERS_CEILING }
    requires texts { sizes.texts ≤ TEXTS_CEILING }
    requires few { slots ≤ MOST_SLOTS }
    requires held { held ≤ TEXTS_CEILING }
    ensures lengths { OnOk result (redo.new.lengths ≡ lengths_with sizes.headers sizes.texts slots) }
    ensures pieces { OnOk result (redo.new.pieces ≡ []) }
    ensures kept { KeepsRoom redo.old redo.new }
{
    let headers = FIXED_HEADER_BYTES as u64 + sizes.headers;
    let index = (slots * INDEX_RECORD_BYTES) as u64;
    redo.reserve(3, 2 * slots as u32 + 3, headers + held + index)?;
    redo.put_len(Length {
        file: FileId::Jhr,
        len: headers,
    });
    redo.put_len(Length {
        file: FileId::Jdt,
        len: sizes.texts,
    });
    redo.put_len(Length {
        file: FileId::Jdx,
        len: index,
    });
    Ok(())
}

/// The slots from the new base on, which is the number of the first of them.
fn kept_of(loaded: &Loaded, first: usize) -> &[LoadedSlot]
    requires first { first ≡ new_base loaded.now - loaded.now.base }
    requires within { first ≤ length loaded.now.slots }
    ensures { result.now ≡ kept_slots loaded.now }
{
    &loaded.slots.as_slice()[first..]
}

/// Puts the new lengths, and all of .JHR and .JDX after a pack. The pieces will hold so many bytes of the texts.
pub(crate) fn put_base(
    alloc: Global,
    redo: &mut Redo,
    loaded: &Loaded,
    links: &[Links],
    base: u32,
    sizes: Sizes,
    held: u64,
) -> Result<(), OutOfMemory>
    requires sound { IsSound MOST_SLOTS loaded.now }
    requires links { (texts : List ℕ) → links.now ≡ plan_of (linkables texts loaded.now) }
    requires base { base ≡ new_base loaded.now }
    requires sizes { AreSizesOf loaded.now.slots sizes }
    requires fits { texts_size loaded.now.slots ≤ TEXTS_CEILING }
    requires held { held ≤ TEXTS_CEILING }
    requires no_lengths { redo.old.lengths ≡ [] }
    requires no_pieces { redo.old.pieces ≡ [] }
    ensures puts { OnOk result (PutsBase loaded.now redo.new) }
    ensures room { KeepsRoom redo.old redo.new }
{
    let slots = kept_of(loaded, (base - loaded.base) as usize);
    put_lengths(redo, sizes, slots.len(), held)?;
    put_area(alloc, redo, loaded, slots, links, base, sizes.live)?;
    Ok(())
}

/// What a pack of an area of these sizes comes to.
pub(crate) fn packing_of(loaded: &Loaded, sizes: Sizes) -> Packing
    requires sound { IsSound MOST_SLOTS loaded.now }
    requires sizes { AreSizesOf loaded.now.slots sizes }
    ensures answer { (texts : List ℕ) → length texts ≡ loaded.now.texts_len
        → AnswersPack (state_of texts loaded.now) result }
    ensures fits { IsPackingOf loaded.now result }
{
    if sizes.texts > TEXTS_CEILING {
        return Packing::TextFull {
            length: sizes.texts,
        };
    }
    Packing::Fits {
        base: loaded.base + first_live(loaded.slots.as_slice()) as u32,
        live: sizes.live,
        dropped: sizes.killed,
    }
}

/// What a pack of the area comes to, whoever asks for it. Linear in the slots; it takes no memory and calls no device.
pub fn pack_comes_to(loaded: &Loaded) -> Packing
    requires sound { IsSound MOST_SLOTS loaded.now }
    ensures answer { (texts : List ℕ) → length texts ≡ loaded.now.texts_len
        → AnswersPack (state_of texts loaded.now) result }
    ensures fits { IsPackingOf loaded.now result }
{
    packing_of(loaded, sizes_of(loaded.slots.as_slice()))
}

/// Puts the packed area: the new lengths, .JHR, .JDX and .JDT.
fn put_pack<D: Disk>(
    alloc: Global,
    disk: &mut D,
    redo: &mut Redo,
    loaded: &Loaded,
    links: &[Links],
    base: u32,
    sizes: Sizes,
) -> Result<(), PackError>
    requires told { ForSome (D.device disk.old).contents (λ files.
        length (files texts_file) ≡ loaded.now.texts_len) }
    requires sound { IsSound MOST_SLOTS loaded.now }
    requires links { (texts : List ℕ) → links.now ≡ plan_of (linkables texts loaded.now) }
    requires base { base ≡ new_base loaded.now }
    requires sizes { AreSizesOf loaded.now.slots sizes }
    requires fits { texts_size loaded.now.slots ≤ TEXTS_CEILING }
    requires no_lengths { redo.old.lengths ≡ [] }
    requires no_pieces { redo.old.pieces ≡ [] }
    ensures packs { OnOk result (IsPackOf (D.device disk.old).contents loaded.now redo.new) }
    ensures room { KeepsRoom redo.old redo.new }

    // The disk is only read.
    ensures kept { OnlyReads (D.device disk.old) (D.device disk.new) }
    ensures faults { CountsFaults is_pack_fault (D.device disk.old) (D.device disk.new) result }
{
    put_base(alloc, redo, loaded, links, base, sizes, sizes.texts)?;
    let slots = kept_of(loaded, (base - loaded.base) as usize);
    put_texts(alloc, disk, redo, loaded, slots)?;
    Ok(())
}

/// Puts the change that packs the area into an empty redo: all of .JHR, .JDX and .JDT, written anew without a gap. Killed
/// messages become empty slots, those below the lowest live number are cut off, and each live message has its number, its
/// subfields and its text as before and the links of the plan, which is that of `relink_plan`. Where the texts together are
/// longer than .JDT may be, nothing is put.
///
/// The record holds all texts, so that it may be longer than the journal may be: such an area is packed by a
/// [`Packer`](crate::Packer).
///
/// Its time is linear in the bytes of the live messages. It takes the memory of the new files once, and of one part of the
/// texts, at most `PACK_STEP_BYTES`, and makes at most one device read a live message. After an error the redo is no change.
pub fn plan<D: Disk>(
    alloc: Global,
    disk: &mut D,
    loaded: &Loaded,
    links: &[Links],
    redo: &mut Redo,
) -> Result<Packing, PackError>
    requires told { ForSome (D.device disk.old).contents (λ files.
        length (files texts_file) ≡ loaded.now.texts_len) }
    requires sound { IsSound MOST_SLOTS loaded.now }
    requires links { (texts : List ℕ) → links.now ≡ plan_of (linkables texts loaded.now) }
    requires no_lengths { redo.old.lengths ≡ [] }
    requires no_pieces { redo.old.pieces ≡ [] }

    // The answer of the definition, whatever the texts are, and the change that makes it so.
    ensures answer { IfOk result (λ packing. (texts : List ℕ) → length texts ≡ loaded.now.texts_len
        → AnswersPack (state_of texts loaded.now) packing) }
    ensures plans { IfOk result (PlansPack (D.device disk.old).contents loaded.now redo.old redo.new) }
    ensures room { KeepsRoom redo.old redo.new }

    // The disk is only read.
    ensures kept { OnlyReads (D.device disk.old) (D.device disk.new) }
    ensures faults { CountsFaults is_pack_fault (D.device disk.old) (D.device disk.new) result }
{
    let sizes = sizes_of(loaded.slots.as_slice());
    let packing = packing_of(loaded, sizes);
    let Packing::Fits { base, .. } = packing else {
        return Ok(packing);
    };
    put_pack(alloc, disk, redo, loaded, links, base, sizes)?;
    Ok(packing)
}
