//! A mark behind the others.
ghost use Rattle.std.specs.Prelude.{◌≡◌, ◌<◌, [], length};
ghost use Rattle.jb_disk.specs.declared.version.Version.TheVariants.{Two};
ghost use Rattle.jb_limits.specs.declared.limits.TheConstants.{MOST_MARKS};
ghost use Rattle.jb_redo.specs.Changes.{KeepsRoom};
ghost use Rattle.jb_redo.specs.Changes.{record_size};
ghost use Rattle.jb_disk.specs.RedoView.{HasRoom, Spends};
ghost use Rattle.jb_state.specs.declared.loaded.Loaded.{Loaded};
ghost use Rattle.jb_redo.specs.Rules.{AreLegalLengths};
ghost use Rattle.jb_change.specs.Behind.{AppendsOnly};
ghost use Rattle.jb_change.specs.NewMark.{MakesMark, mark_lengths, mark_pieces};
ghost use Rattle.jb_image.specs.Records.{IsMarkReadAgain};

use jb_disk::{FileId, Length, Redo};
use jb_image::mark_bytes;
use jb_record::MARK_RECORD_BYTES;
use jb_state::Mark;

/// Puts a mark behind the `count` marks of an area: the new length of .JLR, and the record at its end. It takes no memory.
pub fn put_new_mark(redo: &mut Redo, count: u32, mark: &Mark)
    requires no_lengths { redo.old.lengths ≡ [] }
    requires no_pieces { redo.old.pieces ≡ [] }
    requires room { HasRoom 1 1 16 redo.old }
    requires few { count < MOST_MARKS }

    // Of files that hold an area of so many marks it makes files that hold it with the mark behind, and it leaves each byte
    // that they have.
    ensures makes { MakesMark redo.new count mark.now }
    ensures appends { (loaded : Loaded) → length loaded.marks ≡ count → AppendsOnly redo.new loaded }

    // As a record it has lengths that are legal over any files, and this size.
    ensures lengths { AreLegalLengths Two redo.new.lengths }
    ensures size { record_size redo.new ≡ 72 }

    // It spends no more room than its own, and would give it back.
    ensures room { Spends 1 1 16 redo.old redo.new }
    ensures kept { KeepsRoom redo.old redo.new }
{
    put(redo, count, mark);
}

fn put(redo: &mut Redo, count: u32, mark: &Mark)
    requires no_lengths { redo.old.lengths ≡ [] }
    requires no_pieces { redo.old.pieces ≡ [] }
    requires room { HasRoom 1 1 16 redo.old }
    requires few { count < MOST_MARKS }
    ensures lengths { redo.new.lengths ≡ mark_lengths count }
    ensures pieces { redo.new.pieces ≡ mark_pieces count mark.now }
    ensures back { IsMarkReadAgain mark.now }
    ensures room { Spends 1 1 16 redo.old redo.new }
    ensures kept { KeepsRoom redo.old redo.new }
{
    let end = count * MARK_RECORD_BYTES as u32;
    redo.put_len(Length {
        file: FileId::Jlr,
        len: end as u64 + MARK_RECORD_BYTES as u64,
    });
    redo.put_bytes(FileId::Jlr, end as u64, &mark_bytes(mark));
}
