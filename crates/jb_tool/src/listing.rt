//! The tool `list`.
ghost use Rattle.std.specs.Prelude.{◌≡◌, ◌+◌, ◌^◌, ◌<◌, ◌++◌, ℕ, List, [], IfOk, OnOk, length, unwrap_or};
ghost use Rattle.jb_bytes.specs.Subfields.{first_of};
ghost use Rattle.jb_disk.specs.Device.{CountsFaults};
ghost use Rattle.jb_state.specs.State.{state_of, slot_state};
ghost use Rattle.jb_tool.specs.Answers.{LooksAt};
ghost use Rattle.jb_tool.specs.Listing.{listing_of, message_line, slot_line};
ghost use Rattle.jb_tool.specs.Recovered.{KeepsReplay, is_tool_fault};
ghost use Rattle.jb_tool.specs.declared.tool.Tool.TheVariants.{List as Listing};

use crate::ToolError;
use crate::reading::read_base;
use jb_base::{Bytes, OutOfMemory, RECEIVER_NAME, SENDER_NAME, SUBJECT, Subfields};
use jb_disk::Disk;
use jb_state::{Loaded, LoadedSlot};
use jb_text::append_listing;
use std::alloc::Global;

/// The data of the first subfield with this LoID, or nothing.
fn field(fields: &Subfields, id: u16) -> &[u8]
    ensures { result.now ≡ unwrap_or (first_of id fields.now) [] }
{
    fields.first(id).unwrap_or(&[])
}

/// Puts the line of a message behind a text.
fn append_message(text: &mut Bytes, number: u32, fields: &Subfields) -> Result<(), OutOfMemory>
    ensures { OnOk result (text.new ≡ text.old ++ message_line number fields.now) }
{
    append_listing(
        text,
        number,
        field(fields, SENDER_NAME),
        field(fields, RECEIVER_NAME),
        field(fields, SUBJECT),
    )?;
    text.append(b"\n")
}

/// Puts the line of a slot behind a text, where it is live.
fn append_slot(text: &mut Bytes, number: u32, slot: &LoadedSlot) -> Result<(), OutOfMemory>
    ensures { OnOk result ((texts : List ℕ)
        → text.new ≡ text.old ++ slot_line number (slot_state texts slot.now)) }
{
    match slot {
        LoadedSlot::Live(message) => append_message(text, number, &message.subfields),
        LoadedSlot::Empty | LoadedSlot::Killed { .. } => Ok(()),
    }
}

/// The listing of an area: a line for each live message, in the order of their numbers. The number stands right in 8 places,
/// then sender, receiver and subject, whole, with `?` for control characters.
fn listing(alloc: Global, loaded: &Loaded) -> Result<Bytes, OutOfMemory>
    requires { loaded.now.base + length loaded.now.slots < 2 ^ 32 }
    ensures { IfOk result (λ text. (texts : List ℕ) → text ≡ listing_of (state_of texts loaded.now)) }
{
    let mut text = Bytes::new(alloc);
    let mut number = loaded.base;
    for slot in loaded.slots.as_slice() {
        append_slot(&mut text, number, slot)?;
        number += 1;
    }
    Ok(text)
}

/// The listing of the base that the disk has, which is recovered first.
fn list_base<D: Disk>(alloc: Global, disk: &mut D) -> Result<Bytes, ToolError>
    ensures answer { LooksAt Listing (D.device disk.old) (D.device disk.new) result }
    ensures crash { KeepsReplay (D.device disk.old) (D.device disk.new) }
    ensures faults { CountsFaults is_tool_fault (D.device disk.old) (D.device disk.new) result }
{
    let base = read_base(alloc, disk)?;
    Ok(listing(alloc, &base.loaded)?)
}

/// Lists the live messages of the base on a disk, once the change is done that waits in its journal: a line each, in the order
/// of their numbers. A closed journal is not written.
pub fn list<D: Disk>(alloc: Global, disk: D) -> (D, Result<Bytes, ToolError>)
    ensures answer { LooksAt Listing (D.device disk) (D.device result.0) result.1 }
    ensures crash { KeepsReplay (D.device disk) (D.device result.0) }
    ensures faults { CountsFaults is_tool_fault (D.device disk) (D.device result.0) result.1 }
{
    let mut disk = disk;
    let answer = list_base(alloc, &mut disk);
    (disk, answer)
}
