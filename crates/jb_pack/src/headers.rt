//! The header and the subfields of a message, as they stand in .JHR after a pack.
ghost use Rattle.std.specs.Prelude.{◌≡◌, ◌+◌, ◌<◌, ◌≤◌, ◌^◌, IfOk, OnOk, length};
ghost use Rattle.jb_bytes.specs.Subfields.{subfield_bytes};
ghost use Rattle.jb_limits.specs.declared.limits.TheConstants.{HEADERS_CEILING, MOST_SUBFIELD_BYTES, TEXTS_CEILING};
ghost use Rattle.jb_redo.specs.Changes.{KeepsRoom};
ghost use Rattle.jb_image.specs.Records.{IsHeaderReadAgain, message_bytes};
ghost use Rattle.jb_disk.specs.declared.file.FileId.TheVariants.{Jhr};
ghost use Rattle.jb_state.specs.Loaded.{header_size};
ghost use Rattle.jb_pack.specs.Laid.{Lays, laid};
ghost use Rattle.jb_state.specs.Packed.{moved};
ghost use Rattle.jb_state.specs.Linked.{linked_head};
ghost use Rattle.jb_pack.specs.Places.{IsBehind};

use crate::laying::put;
use crate::place::{Place, behind};
use jb_base::OutOfMemory;
use jb_disk::{FileId, Redo};
use jb_image::write_message;
use jb_state::{Head, Links, LoadedMessage};

/// The header's fields with these links.
pub(crate) fn linked(head: Head, links: &Links) -> Head
    ensures { result ≡ linked_head links.now head }
{
    Head {
        reply_to: links.reply_to,
        reply_first: links.first,
        reply_next: links.next,
        ..head
    }
}

/// Puts the header and the subfields of a live message, with these links, at its place into .JHR, through the buffer, and
/// answers the place of the next one.
pub(crate) fn put_message(
    redo: &mut Redo,
    buffer: &mut Vec<u8>,
    message: &LoadedMessage,
    links: &Links,
    place: Place,
) -> Result<Place, OutOfMemory>
    requires few { length (subfield_bytes message.now.subfields) ≤ MOST_SUBFIELD_BYTES }
    requires at { place.header_at ≡ length (laid redo.old.pieces Jhr) }
    requires headers { place.header_at + header_size message.now ≤ HEADERS_CEILING }
    requires texts { place.text_at + message.now.text_len ≤ TEXTS_CEILING }
    requires number { place.number + 1 < 2 ^ 32 }
    requires live { place.live + 1 < 2 ^ 32 }
    ensures lays { OnOk result (Lays Jhr 1 (message_bytes place.number
        (moved links.now place.header_at place.text_at message.now)) redo.old redo.new) }
    ensures back { OnOk result (IsHeaderReadAgain place.number
        (moved links.now place.header_at place.text_at message.now)) }
    ensures next { IfOk result (IsBehind message.now place) }
    ensures kept { KeepsRoom redo.old redo.new }
{
    let head = linked(message.head, links);
    write_message(buffer, message, &head, place.number, place.text_at)?;
    put(redo, FileId::Jhr, place.header_at, buffer.as_slice())?;
    Ok(behind(message, place))
}
