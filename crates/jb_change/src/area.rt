//! The counts of the fixed header, and the marks (JAM, "Header file", "Lastread file").
ghost use Rattle.std.specs.Prelude.{◌≡◌, ◌+◌, ◌*◌, ◌<◌};
ghost use Rattle.jb_limits.specs.declared.limits.TheConstants.{MOST_MARKS};
ghost use Rattle.jb_change.specs.Changing.{ChangesArea, ChangesMark, WritesOnly};
ghost use Rattle.jb_redo.specs.Changes.{KeepsRoom};
ghost use Rattle.jb_redo.specs.Changes.{record_size};
ghost use Rattle.jb_disk.specs.RedoView.{HasRoom, Spends};
ghost use Rattle.jb_disk.specs.declared.file.FileId.TheVariants.{Jhr, Jlr};
ghost use Rattle.jb_state.specs.Loaded.{with_counts};

use crate::piece::{put_piece, two_numbers};
use jb_disk::{FileId, Redo};
use jb_image::mark_bytes;
use jb_record::MARK_RECORD_BYTES;
use jb_state::Mark;

/// Where ModCounter stands in the fixed header, with ActiveMsgs behind it.
const COUNTS_AT: u32 = 8;

/// Puts ModCounter and ActiveMsgs, the numbers of changes and of live messages, into the fixed header.
pub fn put_counts(redo: &mut Redo, counter: u32, active: u32)
    requires { HasRoom 0 1 8 redo.old }
    ensures makes { ChangesArea redo.old redo.new (with_counts counter active) }
    ensures only { WritesOnly redo.old redo.new Jhr 8 8 }

    // What it takes of the redo and of the journal.
    ensures lengths { redo.new.lengths ≡ redo.old.lengths }
    ensures room { Spends 0 1 8 redo.old redo.new }
    ensures kept { KeepsRoom redo.old redo.new }
    ensures size { record_size redo.new ≡ record_size redo.old + 28 }
{
    put_piece(redo, FileId::Jhr, COUNTS_AT, &two_numbers(counter, active));
}

/// Puts a mark in the place of one that stands at this place of .JLR, counted in records.
pub fn put_mark(redo: &mut Redo, place: u32, mark: &Mark)
    requires room { HasRoom 0 1 16 redo.old }
    requires fits { place < MOST_MARKS }
    ensures makes { ChangesMark redo.old redo.new place mark.now }
    ensures only { WritesOnly redo.old redo.new Jlr (16 * place) 16 }

    // What it takes of the redo and of the journal.
    ensures lengths { redo.new.lengths ≡ redo.old.lengths }
    ensures room { Spends 0 1 16 redo.old redo.new }
    ensures kept { KeepsRoom redo.old redo.new }
    ensures size { record_size redo.new ≡ record_size redo.old + 36 }
{
    put_piece(
        redo,
        FileId::Jlr,
        place * MARK_RECORD_BYTES as u32,
        &mark_bytes(mark),
    );
}
