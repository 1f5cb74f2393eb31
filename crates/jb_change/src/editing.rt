//! A message in the place of one that it differs from in its subject and its text alone.
ghost use Rattle.std.specs.Prelude.{◌≡◌, ◌+◌, OnOk, length};
ghost use Rattle.jb_change.specs.Headers.{UpdatesBut};
ghost use Rattle.jb_change.specs.Post.{HasNumber};
ghost use Rattle.jb_change.specs.Put.{IsMoved, LeavesRest};
ghost use Rattle.jb_limits.specs.declared.limits.TheConstants.{MOST_SLOTS};
ghost use Rattle.jb_state.specs.Change.{FitsAnew, after, live_messages};
ghost use Rattle.jb_state.specs.Sound.{IsSound};
ghost use Rattle.jb_state.specs.declared.change.Change.TheVariants.{Edited};
ghost use Rattle.jb_redo.specs.Changes.{IsWritable, KeepsRoom};

use crate::area::put_counts;
use crate::emptying::empty;
use crate::piece::put_piece;
use crate::posting::put_message;
use jb_base::OutOfMemory;
use jb_disk::{FileId, Redo};
use jb_image::entry_bytes;
use jb_record::INDEX_RECORD_BYTES;
use jb_state::{Loaded, LoadedMessage};
use std::alloc::Global;

/// Puts the message with its text at the ends of .JHR and .JDT, its index record in the place of the old one, and the counts.
pub(crate) fn put_edited(
    alloc: Global,
    redo: &mut Redo,
    loaded: &Loaded,
    place: usize,
    message: &LoadedMessage,
    text: &[u8],
    active: u32,
) -> Result<(), OutOfMemory>
    requires sound { IsSound MOST_SLOTS loaded.now }
    requires fits { FitsAnew place message.now loaded.now }
    requires text { message.now.text_len ≡ length text.now }
    requires active { active ≡ live_messages (after (Edited place message.now) loaded.now) }
    ensures makes { OnOk result (UpdatesBut (IsMoved (Edited place message.now)) redo.new loaded.now
        (after (Edited place message.now) loaded.now) text.now) }
    ensures leaves { OnOk result (LeavesRest redo.new loaded.now (Edited place message.now)) }
    ensures numbered { OnOk result (HasNumber (loaded.now.base + place) redo.new loaded.now message.now) }
    ensures writable { OnOk result (IsWritable redo.new) }
    ensures kept { KeepsRoom redo.old redo.new }
{
    empty(redo);
    put_message(alloc, redo, message, loaded.base + place as u32, text)?;
    put_piece(
        redo,
        FileId::Jdx,
        (INDEX_RECORD_BYTES * place) as u32,
        &entry_bytes(message.owner, message.header_at),
    );
    put_counts(redo, loaded.counter.wrapping_add(1), active);
    Ok(())
}
