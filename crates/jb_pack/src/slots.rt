//! The slots of an area, as they stand in .JHR and .JDX after a pack.
ghost use Rattle.std.specs.Prelude.{◌≡◌, ◌++◌, ◌≤◌, [], OnOk, length};
ghost use Rattle.jb_limits.specs.declared.limits.TheConstants.{MOST_SLOTS, TEXTS_CEILING};
ghost use Rattle.jb_redo.specs.Changes.{KeepsRoom};
ghost use Rattle.jb_image.specs.Records.{IsEntryReadAgain};
ghost use Rattle.jb_disk.specs.declared.file.FileId.TheVariants.{Jhr};
ghost use Rattle.jb_state.specs.Plan.{plan_of};
ghost use Rattle.jb_state.specs.LiveSlots.{linkables_from};
ghost use Rattle.jb_state.specs.Sound.{IsSound};
ghost use Rattle.jb_record.specs.Index.{index_record_bytes};
ghost use Rattle.jb_pack.specs.Bytes.{AreEntriesReadAgain, AreHeadersReadAgain, headers_bytes, index_file};
ghost use Rattle.jb_pack.specs.Laid.{Lays, laid};
ghost use Rattle.jb_state.specs.Packed.{kept_slots, live_slots, new_base, packed, texts_size};

use crate::headers::put_message;
use crate::place::Place;
use jb_base::{Bytes, OutOfMemory};
use jb_disk::Redo;
use jb_image::entry_bytes;
use jb_record::{EMPTY_SLOT, FIXED_HEADER_BYTES};
use jb_state::{Links, Loaded, LoadedSlot};
use std::alloc::Global;

/// Puts an index record behind the others.
fn push_entry(index: &mut Bytes, user_crc: u32, offset: u32) -> Result<(), OutOfMemory>
    ensures ok { OnOk result (index.new ≡ index.old ++ index_record_bytes
        (record { user_crc = user_crc; offset = offset })) }
    ensures back { IsEntryReadAgain (record { user_crc = user_crc; offset = offset }) }
{
    index.append(&entry_bytes(user_crc, offset))
}

/// Puts the headers of the kept slots behind the fixed header, and their index records into `index`: killed messages are
/// empty slots, and the links are those of the plan.
pub(crate) fn put_slots(
    alloc: Global,
    redo: &mut Redo,
    index: &mut Bytes,
    loaded: &Loaded,
    slots: &[LoadedSlot],
    links: &[Links],
    base: u32,
) -> Result<(), OutOfMemory>
    // The area, and what is there already.
    requires sound { IsSound MOST_SLOTS loaded.now }
    requires slots { slots.now ≡ kept_slots loaded.now }
    requires base { base ≡ new_base loaded.now }
    requires links { links.now ≡ plan_of (linkables_from loaded.now.base loaded.now.slots) }
    requires texts { texts_size slots.now ≤ TEXTS_CEILING }
    requires fixed { length (laid redo.old.pieces Jhr) ≡ 1024 }
    requires index { index.old ≡ [] }

    // The headers and the index of the packed area.
    ensures lays { OnOk result (Lays Jhr (live_slots slots.now)
        (headers_bytes base (packed loaded.now).slots) redo.old redo.new) }
    ensures index { OnOk result (index.new ≡ index_file (packed loaded.now)) }
    ensures headers_back { OnOk result (AreHeadersReadAgain base (packed loaded.now).slots) }
    ensures entries_back { OnOk result (AreEntriesReadAgain (packed loaded.now).slots) }
    ensures kept { KeepsRoom redo.old redo.new }
{
    let mut buffer = Vec::new(alloc);
    let mut place = Place {
        number: base,
        header_at: FIXED_HEADER_BYTES as u32,
        text_at: 0,
        live: 0,
    };
    for slot in slots {
        let LoadedSlot::Live(message) = slot else {
            push_entry(index, EMPTY_SLOT, EMPTY_SLOT)?;
            place.number += 1;
            continue;
        };
        push_entry(index, message.owner, place.header_at)?;
        place = put_message(
            redo,
            &mut buffer,
            message,
            &links[place.live as usize],
            place,
        )?;
    }
    Ok(())
}
