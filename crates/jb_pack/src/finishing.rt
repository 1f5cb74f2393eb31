//! An area is packed out of the copies in .NDT.
ghost use Rattle.std.specs.Prelude.{◌≡◌, ◌≤◌, ◌+◌, ◌++◌, ◌∷◌, ◌<◌, ◌^◌, ℕ, All, List, [], IfOk, OnOk, length, sum};
ghost use Rattle.jb_limits.specs.declared.limits.TheConstants.{MOST_SLOTS, TEXTS_CEILING};
ghost use Rattle.jb_redo.specs.Changes.{KeepsRoom};
ghost use Rattle.jb_disk.specs.declared.file.FileId.TheVariants.{Jdt as texts_file, Ndt as shadow_file};
ghost use Rattle.jb_disk.specs.declared.piece.Piece.TheVariants.{Copy};
ghost use Rattle.jb_state.specs.Plan.{plan_of};
ghost use Rattle.jb_state.specs.LiveSlots.{linkables};
ghost use Rattle.jb_state.specs.Sound.{IsSlotWithin, IsSound};
ghost use Rattle.jb_pack.specs.Finish.{IsPackOfCopies, PutsCopies};
ghost use Rattle.jb_state.specs.Packed.{new_base, texts_size};
ghost use Rattle.jb_pack.specs.Plan.{AreSizesOf};
ghost use Rattle.jb_pack.specs.Shadow.{IsBelowCeiling, lefts};

use crate::copied::{CopiedText, copy_of};
use crate::planning::put_base;
use crate::run::{Run, joined};
use crate::sizes::Sizes;
use jb_base::OutOfMemory;
use jb_disk::{FileId, Redo};
use jb_state::{Links, Loaded, LoadedSlot};
use std::alloc::Global;

/// Puts a copy of a part of .NDT to the place in .JDT where the copies before it end, and answers where it ends.
fn put_copy(redo: &mut Redo, run: Run, end: u32) -> Result<u32, OutOfMemory>
    requires fits { end + run.len ≤ TEXTS_CEILING }
    ensures lengths { OnOk result (redo.new.lengths ≡ redo.old.lengths) }
    ensures pieces { OnOk result (redo.new.pieces
        ≡ redo.old.pieces ++ Copy shadow_file run.at texts_file end run.len ∷ []) }
    ensures few { OnOk result (length redo.new.pieces < 2 ^ 32) }
    ensures next { IfOk result (λ next. next ≡ end + run.len) }
    ensures room { KeepsRoom redo.old redo.new }
{
    redo.reserve(0, 1, 0)?;
    let len = run.len as u64;
    redo.put_copy(FileId::Ndt, run.at as u64, FileId::Jdt, end as u64, len);
    let _pieces = redo.pieces();
    Ok(end + run.len)
}

/// Puts the texts of the live messages of these slots, none of which is left to copy, one behind another into .JDT. Texts
/// that stand one behind another in .NDT are one piece, up to `PACK_STEP_BYTES`.
fn put_copies(redo: &mut Redo, copies: &[CopiedText], loaded: &Loaded) -> Result<(), OutOfMemory>
    requires each { All IsBelowCeiling copies.now }
    requires all { sum (lefts copies.now loaded.now.slots) ≡ 0 }
    requires within { All (IsSlotWithin loaded.now.headers_len loaded.now.texts_len) loaded.now.slots }
    requires fits { texts_size loaded.now.slots ≤ TEXTS_CEILING }
    ensures puts { OnOk result (PutsCopies copies.now loaded.now.slots redo.old redo.new) }
    ensures room { KeepsRoom redo.old redo.new }
{
    let mut run = Run { at: 0, len: 0 };
    let mut end = 0;
    let slots = loaded.slots.as_slice();
    for (place, slot) in slots.iter().enumerate() {
        let LoadedSlot::Live(message) = slot else {
            continue;
        };
        let text = Run {
            at: copy_of(copies, place).at,
            len: message.text_len,
        };
        if let Some(more) = joined(run, text) {
            run = more;
            continue;
        }
        end = put_copy(redo, run, end)?;
        run = text;
    }
    put_copy(redo, run, end)?;
    Ok(())
}

/// Puts the packed area: the new lengths, .JHR and .JDX, and .JDT as copies.
pub(crate) fn put_copied_pack(
    alloc: Global,
    redo: &mut Redo,
    copies: &[CopiedText],
    loaded: &Loaded,
    links: &[Links],
    base: u32,
    sizes: Sizes,
) -> Result<(), OutOfMemory>
    requires sound { IsSound MOST_SLOTS loaded.now }
    requires links { (texts : List ℕ) → links.now ≡ plan_of (linkables texts loaded.now) }
    requires each { All IsBelowCeiling copies.now }
    requires all { sum (lefts copies.now loaded.now.slots) ≡ 0 }
    requires base { base ≡ new_base loaded.now }
    requires sizes { AreSizesOf loaded.now.slots sizes }
    requires fits { texts_size loaded.now.slots ≤ TEXTS_CEILING }
    requires no_lengths { redo.old.lengths ≡ [] }
    requires no_pieces { redo.old.pieces ≡ [] }
    ensures packs { OnOk result ((len : ℕ)
        → IsPackOfCopies loaded.now (record { texts = copies.now; len = len }) redo.new) }
    ensures room { KeepsRoom redo.old redo.new }
{
    put_base(alloc, redo, loaded, links, base, sizes, 0)?;
    put_copies(redo, copies, loaded)?;
    Ok(())
}
