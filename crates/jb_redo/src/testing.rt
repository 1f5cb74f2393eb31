//! Whether the journal holds a record.
ghost use Rattle.std.specs.Prelude.{◌<◌, IfOk, IfErr};
ghost use Rattle.std.specs.Option.{ForSome};
ghost use Rattle.jb_disk.specs.Device.{OnlyReads, CountsFaults};
ghost use Rattle.jb_redo.specs.Answers.{AnswersRecord, is_record_fault, RefusesFor};
ghost use Rattle.jb_redo.specs.Laws.{HasOneBadPlaceAtMost, HasOneRecordAtMost, HasRecordOrBadPlace};
ghost use Rattle.jb_redo.specs.Walk.{AreSizes, HasLengths, HasPieces};

use crate::field::{has_mark, read_number};
use crate::layout::end_mark;
use crate::lengths::{NewLengths, read_lengths};
use crate::piece::read_part;
use crate::sizes::Sizes;
use crate::{RecordError, RecordHead};
use jb_disk::{Disk, FileId};

/// The place behind the record's pieces, if all of them keep the rules.
fn test_pieces<D: Disk>(
    disk: &mut D,
    sizes: &Sizes,
    lengths: &NewLengths,
) -> Result<u64, RecordError>
    requires sizes { ForSome (D.device disk.old).contents (AreSizes sizes.now) }
    requires lengths { ForSome (D.device disk.old).contents (λ files.
        HasLengths files lengths.now.at lengths.now.ends) }

    // The place, or the one of the field that is cut off or breaks a rule.
    ensures found { IfOk result (λ at. ForSome (D.device disk.old).contents (λ files.
        HasPieces files at)) }
    ensures refused { IfErr result (λ error. ForSome (D.device disk.old).contents (λ files.
        RefusesFor files error)) }

    // The disk is only read.
    ensures kept { OnlyReads (D.device disk.old) (D.device disk.new) }
    ensures faults { CountsFaults is_record_fault (D.device disk.old) (D.device disk.new) result }
{
    let mut at = lengths.at;
    let Some(count) = read_number(disk, sizes.get(FileId::Jnl), at, 4)? else {
        return Err(RecordError::Bad { at });
    };
    at += 4;
    for _ in 0..count {
        let Some(part) = read_part(disk, sizes, &lengths.ends, at)? else {
            return Err(RecordError::Bad { at });
        };
        at = part.behind;
    }
    Ok(at)
}

/// The journal's record, walked through.
fn walk_record<D: Disk>(disk: &mut D) -> Result<RecordHead, RecordError>
    ensures answer { ForSome (D.device disk.old).contents (λ files. AnswersRecord files result) }
    ensures kept { OnlyReads (D.device disk.old) (D.device disk.new) }
    ensures faults { CountsFaults is_record_fault (D.device disk.old) (D.device disk.new) result }
{
    let sizes = Sizes::of(disk)?;
    let lengths = read_lengths(disk, &sizes)?;
    let at = test_pieces(disk, &sizes, &lengths)?;
    let end = end_mark(sizes.version);
    if !has_mark(disk, sizes.get(FileId::Jnl), at, &end)? {
        return Err(RecordError::Bad { at });
    }
    Ok(lengths.head)
}

/// Whether .JNL holds, from byte 16 on, a record of the journal's version over the files as they are, and what its head
/// says.
///
/// `Bad` names the place in .JNL of the first field that is cut off by the file's end or breaks a rule of the record; a
/// piece with its bytes is one field. Bytes behind the record's end are not looked at, and neither is the gate. Six
/// questions for a length and a read of the version; then a read for each field and two for a copy, none of them longer
/// than 20 bytes. It takes no memory.
pub fn test_record<D: Disk>(disk: &mut D) -> Result<RecordHead, RecordError>
    // What the files say, where the disk tells them: they hold one record, or there is one place where it stops.
    ensures answer { ForSome (D.device disk.old).contents (λ files. AnswersRecord files result) }
    ensures one { HasOneRecordAtMost × HasOneBadPlaceAtMost × HasRecordOrBadPlace }

    // On every disk.
    ensures kept { OnlyReads (D.device disk.old) (D.device disk.new) }
    ensures faults { CountsFaults is_record_fault (D.device disk.old) (D.device disk.new) result }
{
    walk_record(disk)
}
