//! .JHR and .JDX of an area after a pack.
ghost use Rattle.std.specs.Prelude.{◌≡◌, ◌≤◌, OnOk, length};
ghost use Rattle.jb_limits.specs.declared.limits.TheConstants.{MOST_SLOTS, TEXTS_CEILING};
ghost use Rattle.jb_redo.specs.Changes.{KeepsRoom};
ghost use Rattle.jb_image.specs.Records.{IsFixedReadAgain};
ghost use Rattle.jb_disk.specs.declared.file.FileId.TheVariants.{Jhr as headers_file_id, Jdx as index_file_id};
ghost use Rattle.jb_image.specs.Stands.{fixed_of};
ghost use Rattle.jb_state.specs.Plan.{plan_of};
ghost use Rattle.jb_state.specs.LiveSlots.{linkables_from};
ghost use Rattle.jb_state.specs.Sound.{IsSound};
ghost use Rattle.jb_record.specs.Fixed.{fixed_header_bytes};
ghost use Rattle.jb_pack.specs.Laid.{Lays, laid};
ghost use Rattle.jb_state.specs.Packed.{kept_slots, live_slots, new_base, packed, texts_size};
ghost use Rattle.jb_pack.specs.Plan.{PutsArea};

use crate::laying::put;
use crate::slots::put_slots;
use jb_base::{Bytes, OutOfMemory};
use jb_disk::{FileId, Redo};
use jb_image::fixed_of;
use jb_record::{FixedHeader, encode_fixed};
use jb_state::{Links, Loaded, LoadedSlot};
use std::alloc::Global;

/// The fixed header with the new base and the number of live messages; a change more is counted.
fn fixed_after(loaded: &Loaded, base: u32, live: u32) -> FixedHeader
    requires base { base ≡ new_base loaded.now }
    requires live { live ≡ live_slots (kept_slots loaded.now) }
    ensures { result ≡ fixed_of (packed loaded.now) }
{
    let fixed = fixed_of(loaded);
    FixedHeader {
        counter: fixed.counter.wrapping_add(1),
        active: live,
        base,
        ..fixed
    }
}

/// Puts the fixed header to the beginning of .JHR.
fn put_fixed(redo: &mut Redo, loaded: &Loaded, base: u32, live: u32) -> Result<(), OutOfMemory>
    requires base { base ≡ new_base loaded.now }
    requires live { live ≡ live_slots (kept_slots loaded.now) }
    requires begin { length (laid redo.old.pieces headers_file_id) ≡ 0 }
    ensures lays { OnOk result (Lays headers_file_id 1
        (fixed_header_bytes (fixed_of (packed loaded.now))) redo.old redo.new) }
    ensures size { OnOk result (length (fixed_header_bytes (fixed_of (packed loaded.now))) ≡ 1024) }
    ensures back { OnOk result (IsFixedReadAgain (packed loaded.now)) }
    ensures kept { KeepsRoom redo.old redo.new }
{
    let bytes = encode_fixed(&fixed_after(loaded, base, live));
    put(redo, FileId::Jhr, 0, &bytes)?;
    Ok(())
}

/// Puts all of .JHR and .JDX after a pack, whose slots from the new base on are these.
pub(crate) fn put_area(
    alloc: Global,
    redo: &mut Redo,
    loaded: &Loaded,
    slots: &[LoadedSlot],
    links: &[Links],
    base: u32,
    live: u32,
) -> Result<(), OutOfMemory>
    // The area, of which nothing is put yet.
    requires sound { IsSound MOST_SLOTS loaded.now }
    requires slots { slots.now ≡ kept_slots loaded.now }
    requires base { base ≡ new_base loaded.now }
    requires live { live ≡ live_slots (kept_slots loaded.now) }
    requires links { links.now ≡ plan_of (linkables_from loaded.now.base loaded.now.slots) }
    requires texts { texts_size slots.now ≤ TEXTS_CEILING }
    requires begin { length (laid redo.old.pieces headers_file_id) ≡ 0 }
    requires begin_index { length (laid redo.old.pieces index_file_id) ≡ 0 }

    ensures puts { OnOk result (PutsArea loaded.now redo.old redo.new) }
    ensures kept { KeepsRoom redo.old redo.new }
{
    put_fixed(redo, loaded, base, live)?;
    let mut index = Bytes::new(alloc);
    put_slots(alloc, redo, &mut index, loaded, slots, links, base)?;
    put(redo, FileId::Jdx, 0, index.as_slice())?;
    Ok(())
}
