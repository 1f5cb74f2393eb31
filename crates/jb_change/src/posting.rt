//! A message behind the others.
ghost use Rattle.std.specs.Prelude.{◌≡◌, ◌<◌, ◌≤◌, ◌+◌, ◌*◌, ◌++◌, ◌∷◌, [], All, OnOk, OnErr, length};
ghost use Rattle.jb_disk.specs.declared.version.Version.TheVariants.{Two};
ghost use Rattle.jb_bytes.specs.Subfields.{IsSubfield, subfield_bytes};
ghost use Rattle.jb_limits.specs.declared.limits.TheConstants.{HEADERS_CEILING, MOST_SLOTS, MOST_SUBFIELD_BYTES, TEXTS_CEILING};
ghost use Rattle.jb_redo.specs.Changes.{KeepsRoom};
ghost use Rattle.jb_change.specs.Makes.{Makes};
ghost use Rattle.jb_redo.specs.Changes.{record_size};
ghost use Rattle.jb_disk.specs.RedoView.{HasRoom, SameLists, Spends};
ghost use Rattle.jb_state.specs.Loaded.{header_size, with_message_behind};
ghost use Rattle.jb_redo.specs.Rules.{AreLegalLengths};
ghost use Rattle.jb_change.specs.declared.posting.TheConstants.{SPARE_BYTES, SPARE_PIECES};
ghost use Rattle.jb_change.specs.Behind.{AppendsOnly};
ghost use Rattle.jb_change.specs.Post.{HasNextNumber, IsNext, entry_piece, index_length, message_lengths, message_pieces};
ghost use Rattle.jb_image.specs.Records.{IsEntryReadAgain, IsHeaderReadAgain, entry_for};
ghost use Rattle.jb_state.specs.declared.loaded.LoadedSlot.TheVariants.{Live};

use jb_base::OutOfMemory;
use jb_disk::{FileId, Length, Redo};
use jb_image::{entry_bytes, message_bytes};
use jb_record::INDEX_RECORD_BYTES;
use jb_state::{Loaded, LoadedMessage};
use std::alloc::Global;

/// Pieces for which [`put_post`] leaves room behind its own.
pub const SPARE_PIECES: u32 = 4;
/// Bytes of pieces for which [`put_post`] leaves room behind its own.
pub const SPARE_BYTES: u64 = 64;

/// Puts a message behind the others: the new lengths of .JHR, .JDT and .JDX, the header with its subfields at the end of
/// .JHR, the text at the end of .JDT, and the index record at the end of .JDX. It makes room for them and for some pieces
/// more, such as the links and the counts that the same change writes.
pub fn put_post(
    alloc: Global,
    redo: &mut Redo,
    loaded: &Loaded,
    message: &LoadedMessage,
    text: &[u8],
) -> Result<(), OutOfMemory>
    requires no_lengths { redo.old.lengths ≡ [] }
    requires no_pieces { redo.old.pieces ≡ [] }
    requires next { IsNext loaded.now message.now text.now }

    // Of files that hold the area it makes files that hold it with the message behind, under the next number, and it leaves
    // each byte that they have.
    ensures makes { OnOk result (Makes redo.new loaded.now
        (with_message_behind message.now loaded.now) text.now) }
    ensures appends { OnOk result (AppendsOnly redo.new loaded.now) }
    ensures numbered { OnOk result (HasNextNumber redo.new loaded.now message.now) }

    // As a record it has lengths that are legal over any files, and this size.
    ensures lengths { OnOk result (AreLegalLengths Two redo.new.lengths) }
    ensures size { OnOk result (record_size redo.new ≡ 128 + header_size message.now + length text.now) }

    // There is room for a few pieces more.
    ensures room { OnOk result (HasRoom 0 SPARE_PIECES SPARE_BYTES redo.new) }
    ensures kept { KeepsRoom redo.old redo.new }

    // For want of memory it stays empty.
    ensures err { OnErr result (SameLists redo.old redo.new) }
{
    let number = loaded.base + loaded.slots.as_slice().len() as u32;
    put_message(alloc, redo, message, number, text)?;
    put_entry(redo, loaded, message);
    Ok(())
}

/// Puts a message at the ends of .JHR and .JDT: the new lengths of both, the header with this number and its subfields, and
/// the text. It makes room for them, for the index record, and for some pieces more.
pub(crate) fn put_message(
    alloc: Global,
    redo: &mut Redo,
    message: &LoadedMessage,
    number: u32,
    text: &[u8],
) -> Result<(), OutOfMemory>
    requires no_lengths { redo.old.lengths ≡ [] }
    requires no_pieces { redo.old.pieces ≡ [] }
    requires few_bytes { length (subfield_bytes message.now.subfields) ≤ MOST_SUBFIELD_BYTES }
    requires text { message.now.text_len ≡ length text.now }
    requires headers { message.now.header_at + header_size message.now ≤ HEADERS_CEILING }
    requires texts { message.now.text_at + message.now.text_len ≤ TEXTS_CEILING }

    // What it puts, and that the header is read again.
    ensures lengths { OnOk result (redo.new.lengths ≡ message_lengths message.now) }
    ensures pieces { OnOk result (redo.new.pieces ≡ message_pieces number message.now text.now) }
    ensures back { OnOk result (IsHeaderReadAgain number message.now) }
    ensures fit { OnOk result (All IsSubfield message.now.subfields) }

    // There is room for the index record and a few pieces more.
    ensures room { OnOk result (HasRoom 1 (1 + SPARE_PIECES) (8 + SPARE_BYTES) redo.new) }
    ensures kept { KeepsRoom redo.old redo.new }

    // For want of memory it stays empty.
    ensures err { OnErr result (SameLists redo.old redo.new) }
{
    let header = message_bytes(alloc, message, &message.head, number, message.text_at)?;
    let bytes = header.len() + text.len() + INDEX_RECORD_BYTES;
    redo.reserve(3, 3 + SPARE_PIECES, bytes as u64 + SPARE_BYTES)?;
    redo.put_len(Length {
        file: FileId::Jhr,
        len: message.header_at as u64 + header.len() as u64,
    });
    redo.put_len(Length {
        file: FileId::Jdt,
        len: message.text_at as u64 + message.text_len as u64,
    });
    redo.put_bytes(FileId::Jhr, message.header_at as u64, header.as_slice());
    redo.put_bytes(FileId::Jdt, message.text_at as u64, text);
    Ok(())
}

/// The new length of .JDX, and the index record of the message at its end.
fn put_entry(redo: &mut Redo, loaded: &Loaded, message: &LoadedMessage)
    requires room { HasRoom 1 1 8 redo.old }
    requires few { length loaded.now.slots < MOST_SLOTS }
    ensures lengths { redo.new.lengths ≡ redo.old.lengths ++ index_length loaded.now ∷ [] }
    ensures pieces { redo.new.pieces ≡ redo.old.pieces ++ entry_piece (length loaded.now.slots) message.now ∷ [] }
    ensures back { IsEntryReadAgain (entry_for (Live message.now)) }
    ensures room { Spends 1 1 8 redo.old redo.new }
    ensures kept { KeepsRoom redo.old redo.new }
{
    let end = index_end(loaded);
    redo.put_len(Length {
        file: FileId::Jdx,
        len: end as u64 + INDEX_RECORD_BYTES as u64,
    });
    let entry = entry_bytes(message.owner, message.header_at);
    redo.put_bytes(FileId::Jdx, end as u64, &entry);
}

/// The length of .JDX.
fn index_end(loaded: &Loaded) -> u32
    requires few { length loaded.now.slots < MOST_SLOTS }
    ensures { result ≡ 8 * length loaded.now.slots }
{
    (loaded.slots.as_slice().len() * INDEX_RECORD_BYTES) as u32
}
