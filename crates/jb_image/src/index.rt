//! The index, and the first look at the slots that it names.
ghost use Rattle.std.specs.Prelude.{◌≡◌, ◌+◌, ◌*◌, ◌<◌, ◌≤◌, IfOk, IfSome, IfNone, All, length};
ghost use Rattle.std.specs.Option.{ForSome};
ghost use Rattle.jb_disk.specs.Device.{OnlyReads, CountsFaults};
ghost use Rattle.jb_disk.specs.declared.file.FileId.TheVariants.{Jdx as index_file, Jhr as headers_file};
ghost use Rattle.jb_image.specs.Answers.{IsDamaged, is_read_fault};
ghost use Rattle.jb_image.specs.Lengths.{AreLengths};
ghost use Rattle.jb_image.specs.Places.{entry_in};
ghost use Rattle.jb_image.specs.Reading.{AreSeen, IsSeenWithin};
ghost use Rattle.jb_image.specs.Windows.{IsWindowOn};

use crate::error::{Damage, ReadError};
use crate::header::see_slot;
use crate::lengths::Lengths;
use crate::seen::SeenSlot;
use crate::window::Window;
use jb_disk::{Disk, FileId};
use jb_record::{INDEX_RECORD_BYTES, IndexRecord, decode_index};
use std::alloc::Global;

/// The index record at a place, counted in records, by a window on .JDX.
pub(crate) fn read_entry<D: Disk>(
    disk: &mut D,
    index: &mut Window,
    index_len: u64,
    k: usize,
) -> Result<IndexRecord, ReadError>
    requires inside { 8 * k + 8 ≤ index_len }
    requires index { IsWindowOn index_file index_len (D.device disk.old).contents index.old }
    ensures found { IfOk result (λ entry. ForSome (D.device disk.old).contents (λ files.
        entry ≡ entry_in files k)) }
    ensures index { IsWindowOn index_file index_len (D.device disk.new).contents index.new }
    ensures kept { OnlyReads (D.device disk.old) (D.device disk.new) }
    ensures faults { CountsFaults is_read_fault (D.device disk.old) (D.device disk.new) result }
{
    let at = (INDEX_RECORD_BYTES * k) as u64;
    index.reach(disk, at, INDEX_RECORD_BYTES)?;
    Ok(decode_index(index.view(at, INDEX_RECORD_BYTES)).unwrap())
}

/// The slots whose headers were read, in the order of the index, and what is wrong with the next one, if something is.
pub(crate) struct Seen {
    pub(crate) slots: Vec<SeenSlot>,
    pub(crate) damage: Option<Damage>,
}

// Whoever lets go of one does so in one call.
impl Drop for Seen {
    fn drop(self) {
        let Seen {
            slots: _slots,
            damage: _damage,
        } = self;
    }
}

/// The slots of the index up to the first whose header is damaged, as far as that is seen without the subfields. At
/// most two device reads a slot.
pub(crate) fn see_slots<D: Disk>(
    alloc: Global,
    disk: &mut D,
    window: &mut Window,
    lengths: &Lengths,
    count: usize,
) -> Result<Seen, ReadError>
    requires all { lengths.now.index ≡ 8 * count }
    requires lengths { ForSome (D.device disk.old).contents (AreLengths lengths.now) }
    requires window { IsWindowOn headers_file lengths.now.headers (D.device disk.old).contents window.old }

    // The slots, as far as they are read.
    ensures within { IfOk result (λ seen. All (IsSeenWithin lengths.now.headers) seen.slots.items) }
    ensures found { IfOk result (λ seen. ForSome (D.device disk.old).contents (λ files.
        AreSeen files seen.slots.items)) }
    ensures whole { IfOk result (λ seen. IfNone seen.damage (length seen.slots.items ≡ count)) }
    ensures part { IfOk result (λ seen. IfSome seen.damage (λ _. length seen.slots.items < count)) }
    ensures damaged { IfOk result (λ seen.
        IfSome seen.damage (λ damage. ForSome (D.device disk.old).contents (λ files.
        IsDamaged files (entry_in files (length seen.slots.items)) damage))) }

    // The disk is only read.
    ensures window { IsWindowOn headers_file lengths.now.headers (D.device disk.new).contents window.new }
    ensures kept { OnlyReads (D.device disk.old) (D.device disk.new) }
    ensures faults { CountsFaults is_read_fault (D.device disk.old) (D.device disk.new) result }
{
    let mut slots = Vec::new(alloc);
    let mut index = Window::new(alloc, FileId::Jdx, lengths.index);
    for k in 0..count {
        let entry = read_entry(disk, &mut index, lengths.index, k)?;
        match see_slot(disk, window, &entry, lengths)? {
            Ok(slot) => slots.push(slot)?,
            Err(damage) => {
                return Ok(Seen {
                    slots,
                    damage: Some(damage),
                });
            }
        }
    }
    Ok(Seen {
        slots,
        damage: None,
    })
}
