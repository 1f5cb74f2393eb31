//! Fields of a message header (JAM, "Message header").
ghost use Rattle.std.specs.Prelude.{◌≡◌, ◌+◌, ◌<◌, ◌^◌, bit_and, bit_or};
ghost use Rattle.jb_base.specs.declared.attribute.TheConstants.{DELETED};
ghost use Rattle.jb_change.specs.Changing.{ChangesHead, ChangesHeader, ChangesMessage, WritesOnly, head_with_links, head_with_reading, header_with_attribute, header_with_links, header_with_reading};
ghost use Rattle.jb_redo.specs.Changes.{KeepsRoom};
ghost use Rattle.jb_redo.specs.Changes.{record_size};
ghost use Rattle.jb_disk.specs.RedoView.{HasRoom, Spends};
ghost use Rattle.jb_disk.specs.declared.file.FileId.TheVariants.{Jhr};
ghost use Rattle.jb_state.specs.Loaded.{with_killed_at};

use crate::piece::{one_number, put_piece, three_numbers};
use jb_base::DELETED;
use jb_disk::{FileId, Redo};
use jb_state::Head;

/// Where TimesRead stands in a message header.
const TIMES_READ_AT: u32 = 12;
/// Where ReplyTo stands, with Reply1st and ReplyNext behind it.
const LINKS_AT: u32 = 24;
/// Where DateReceived stands.
const RECEIVED_AT: u32 = 40;
/// Where Attribute stands.
const ATTRIBUTE_AT: u32 = 52;

/// Puts ReplyTo, Reply1st and ReplyNext into the message header at this place of .JHR.
pub fn put_links(redo: &mut Redo, at: u32, reply_to: u32, first: u32, next: u32)
    requires room { HasRoom 0 1 12 redo.old }
    requires fits { at + 76 < 2 ^ 32 }

    // The live message whose header stands there has these links, and no other field is another.
    ensures makes { ChangesHead redo.old redo.new at (head_with_links reply_to first next) }
    ensures header { ChangesHeader redo.old redo.new at (header_with_links reply_to first next) }
    ensures only { WritesOnly redo.old redo.new Jhr (at + 24) 12 }

    // What it takes of the redo and of the journal.
    ensures lengths { redo.new.lengths ≡ redo.old.lengths }
    ensures room { Spends 0 1 12 redo.old redo.new }
    ensures kept { KeepsRoom redo.old redo.new }
    ensures size { record_size redo.new ≡ record_size redo.old + 32 }
{
    put_piece(
        redo,
        FileId::Jhr,
        at + LINKS_AT,
        &three_numbers(reply_to, first, next),
    );
}

/// Puts TimesRead, DateReceived and Attribute, as they stand in `reading`, into the message header at this place of .JHR.
/// The message stays live: `reading` does not have the bit of a kill.
pub fn put_reading(redo: &mut Redo, at: u32, reading: &Head)
    requires room { HasRoom 0 3 12 redo.old }
    requires fits { at + 76 < 2 ^ 32 }
    requires live { bit_and reading.now.attribute DELETED ≡ 0 }

    // The live message whose header stands there has these three, and no other field is another.
    ensures makes { ChangesHead redo.old redo.new at (head_with_reading reading.now) }
    ensures header { ChangesHeader redo.old redo.new at (header_with_reading reading.now) }
    ensures only { WritesOnly redo.old redo.new Jhr (at + 12) 44 }

    // What it takes of the redo and of the journal.
    ensures lengths { redo.new.lengths ≡ redo.old.lengths }
    ensures room { Spends 0 3 12 redo.old redo.new }
    ensures kept { KeepsRoom redo.old redo.new }
    ensures size { record_size redo.new ≡ record_size redo.old + 72 }
{
    put_piece(
        redo,
        FileId::Jhr,
        at + TIMES_READ_AT,
        &one_number(reading.times_read),
    );
    put_piece(
        redo,
        FileId::Jhr,
        at + RECEIVED_AT,
        &one_number(reading.received),
    );
    put_piece(
        redo,
        FileId::Jhr,
        at + ATTRIBUTE_AT,
        &one_number(reading.attribute),
    );
}

/// Kills the message whose header stands at this place of .JHR: puts this Attribute there, with the bit of a kill set.
pub fn put_kill(redo: &mut Redo, at: u32, attribute: u32)
    requires room { HasRoom 0 1 4 redo.old }
    requires fits { at + 76 < 2 ^ 32 }

    // The live message whose header stands there is killed; its header has that attribute, and no other field is another.
    ensures makes { ChangesMessage redo.old redo.new at with_killed_at }
    ensures header { ChangesHeader redo.old redo.new at (header_with_attribute (bit_or attribute DELETED)) }
    ensures only { WritesOnly redo.old redo.new Jhr (at + 52) 4 }

    // What it takes of the redo and of the journal.
    ensures lengths { redo.new.lengths ≡ redo.old.lengths }
    ensures room { Spends 0 1 4 redo.old redo.new }
    ensures kept { KeepsRoom redo.old redo.new }
    ensures size { record_size redo.new ≡ record_size redo.old + 24 }
{
    let killed = attribute | DELETED;
    put_piece(redo, FileId::Jhr, at + ATTRIBUTE_AT, &one_number(killed));
}
