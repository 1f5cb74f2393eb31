//! The texts of the live messages, one behind another.
ghost use Rattle.std.specs.Prelude.{◌≡◌, ◌+◌, ◌≤◌, All, IfErr, IfOk, OnOk, length};
ghost use Rattle.std.specs.Option.{ForSome};
ghost use Rattle.jb_limits.specs.declared.limits.TheConstants.{TEXTS_CEILING};
ghost use Rattle.jb_redo.specs.Changes.{KeepsRoom};
ghost use Rattle.jb_disk.specs.Device.{OnlyReads, CountsFaults};
ghost use Rattle.jb_disk.specs.declared.file.FileId.TheVariants.{Jdt as texts_file};
ghost use Rattle.jb_state.specs.Sound.{IsSlotWithin};
ghost use Rattle.jb_pack.specs.Copying.{PutsRun, PutsTexts, is_pack_fault};
ghost use Rattle.jb_pack.specs.Laid.{laid};
ghost use Rattle.jb_state.specs.Packed.{texts_size};

use crate::PackError;
use crate::laying::put;
use crate::run::{Run, joined};
use jb_disk::{Disk, FileId, Redo};
use jb_state::{Loaded, LoadedSlot};
use std::alloc::Global;

/// Reads a part of .JDT and puts it behind what the redo writes there, and answers where that ends then.
fn put_run<D: Disk>(
    alloc: Global,
    disk: &mut D,
    redo: &mut Redo,
    run: Run,
    end: u32,
) -> Result<u32, PackError>
    requires within { ForSome (D.device disk.old).contents (λ files.
        run.at + run.len ≤ length (files texts_file)) }
    requires end { end ≡ length (laid redo.old.pieces texts_file) }
    requires fits { end + run.len ≤ TEXTS_CEILING }

    // Its bytes, where the disk tells them.
    ensures puts { OnOk result (PutsRun (D.device disk.old).contents run redo.old redo.new) }
    ensures next { IfOk result (λ next. next ≡ end + run.len) }
    ensures room { KeepsRoom redo.old redo.new }

    // The disk is only read.
    ensures kept { OnlyReads (D.device disk.old) (D.device disk.new) }
    ensures faults { CountsFaults is_pack_fault (D.device disk.old) (D.device disk.new) result }
{
    let mut bytes = vec![in alloc; 0; run.len as usize]?;
    disk.read_at(FileId::Jdt, run.at as u64, bytes.as_mut_slice())?;
    put(redo, FileId::Jdt, end, bytes.as_slice())?;
    Ok(end + run.len)
}

/// Puts the texts of the live messages of these slots into .JDT, one behind another from its beginning on. Texts that stand
/// one behind another already are read at once, up to `PACK_STEP_BYTES`.
pub(crate) fn put_texts<D: Disk>(
    alloc: Global,
    disk: &mut D,
    redo: &mut Redo,
    loaded: &Loaded,
    slots: &[LoadedSlot],
) -> Result<(), PackError>
    requires told { ForSome (D.device disk.old).contents (λ files.
        length (files texts_file) ≡ loaded.now.texts_len) }
    requires within { All (IsSlotWithin loaded.now.headers_len loaded.now.texts_len) slots.now }
    requires fits { texts_size slots.now ≤ TEXTS_CEILING }
    requires begin { length (laid redo.old.pieces texts_file) ≡ 0 }

    // The texts, where the disk tells them.
    ensures puts { OnOk result (PutsTexts (D.device disk.old).contents slots.now redo.old redo.new) }
    ensures room { KeepsRoom redo.old redo.new }

    // The disk is only read.
    ensures kept { OnlyReads (D.device disk.old) (D.device disk.new) }
    ensures faults { CountsFaults is_pack_fault (D.device disk.old) (D.device disk.new) result }
{
    let mut run = Run { at: 0, len: 0 };
    let mut end = 0;
    for slot in slots {
        let LoadedSlot::Live(message) = slot else {
            continue;
        };
        let text = Run {
            at: message.text_at,
            len: message.text_len,
        };
        if let Some(more) = joined(run, text) {
            run = more;
            continue;
        }
        end = put_run(alloc, disk, redo, run, end)?;
        run = text;
    }
    put_run(alloc, disk, redo, run, end)?;
    Ok(())
}
