//! The first part of a record: the new lengths.
ghost use Rattle.std.specs.Prelude.{◌≡◌, ◌+◌, ◌<◌, ◌≤◌, IfOk, IfErr, IfSome, IfNone, [], length};
ghost use Rattle.std.specs.Option.{ForSome};
ghost use Rattle.jb_disk.specs.Device.{OnlyReads, CountsFaults, is_disk_fault};
ghost use Rattle.jb_disk.specs.Files.{file_number};
ghost use Rattle.jb_disk.specs.declared.file.FileId.TheVariants.{Jnl as journal};
ghost use Rattle.jb_disk.specs.declared.piece.Length.{Length};
ghost use Rattle.jb_redo.specs.Answers.{is_record_fault, RefusesFor};
ghost use Rattle.jb_redo.specs.Reading.{BeginsWith, Lengths};
ghost use Rattle.jb_redo.specs.Record.{width_of, length_bytes};
ghost use Rattle.jb_redo.specs.Rules.{IsLegalLength};
ghost use Rattle.jb_redo.specs.declared.head.RecordHead.{RecordHead};
ghost use Rattle.jb_redo.specs.Walk.{journal_from, head_size, size_in, AreSizes, AreWithin, HasVersion, HasHead, IsReadTo, HasLengths};

use crate::decode::decode_length;
use crate::field::{has_mark, read_bytes, read_number};
use crate::layout::{head_bytes, start_mark, width};
use crate::sizes::Sizes;
use crate::{RecordError, RecordHead};
use jb_disk::{Disk, DiskFailed, FileId, Length, Version};

/// The place in the journal at which a record begins.
const RECORD_AT: u64 = 16;
/// The most bytes that a new length takes.
const MOST_LENGTH_BYTES: usize = 12;

/// What a record's head says, the lengths of the files once its lengths are set, and the place behind these lengths.
#[derive(Clone, Copy)]
pub(crate) struct NewLengths {
    pub(crate) head: RecordHead,
    pub(crate) ends: Sizes,
    pub(crate) at: u64,
}

/// The new length at a place of the journal, if one of a file whose number is at least `least` stands there.
fn read_length<D: Disk>(
    disk: &mut D,
    sizes: &Sizes,
    at: u64,
    least: u8,
) -> Result<Option<Length>, DiskFailed>
    requires { ForSome (D.device disk.old).contents (λ files.
        size_in sizes.now journal ≡ length (files journal)) }

    // The length, where one stands there.
    ensures within { IfOk result (λ some. IfSome some (λ entry.
        at + (4 + width_of sizes.now.version) ≤ size_in sizes.now journal)) }
    ensures legal { IfOk result (λ some. IfSome some (λ entry.
        IsLegalLength sizes.now.version entry × (least ≤ file_number entry.file))) }
    ensures found { IfOk result (λ some. IfSome some (λ entry.
        ForSome (D.device disk.old).contents (λ files.
        BeginsWith (journal_from files at) (length_bytes sizes.now.version entry)))) }
    ensures none { IfOk result (λ some. IfNone some (ForSome (D.device disk.old).contents (λ files.
        (entry : Length) → IsLegalLength sizes.now.version entry → least ≤ file_number entry.file
        → BeginsWith (journal_from files at) (length_bytes sizes.now.version entry) → ⊥))) }

    // The disk is only read.
    ensures kept { OnlyReads (D.device disk.old) (D.device disk.new) }
    ensures faults { CountsFaults is_disk_fault (D.device disk.old) (D.device disk.new) result }
{
    let mut buffer = [0; MOST_LENGTH_BYTES];
    let bytes = &mut buffer[..4 + width(sizes.version)];
    if !read_bytes(disk, sizes.get(FileId::Jnl), at, bytes)? {
        return Ok(None);
    }
    Ok(decode_length(sizes.version, bytes, least))
}

/// What the head of the record says, if the journal has one of its version.
fn read_head<D: Disk>(disk: &mut D, sizes: &Sizes) -> Result<RecordHead, RecordError>
    requires sizes { ForSome (D.device disk.old).contents (λ files.
        size_in sizes.now journal ≡ length (files journal)) }
    requires version { ForSome (D.device disk.old).contents (HasVersion sizes.now.version) }

    // The head, or the place of the mark or of the number, whichever is none.
    ensures version { IfOk result (λ head. head.version ≡ sizes.now.version) }
    ensures found { IfOk result (λ head. ForSome (D.device disk.old).contents (HasHead head)) }
    ensures refused { IfErr result (λ error. ForSome (D.device disk.old).contents (λ files.
        RefusesFor files error)) }

    // The disk is only read.
    ensures kept { OnlyReads (D.device disk.old) (D.device disk.new) }
    ensures faults { CountsFaults is_record_fault (D.device disk.old) (D.device disk.new) result }
{
    let end = sizes.get(FileId::Jnl);
    let version = sizes.version;
    if !has_mark(disk, end, RECORD_AT, &start_mark(version))? {
        return Err(RecordError::Bad { at: RECORD_AT });
    }
    match version {
        Version::One => Ok(RecordHead { version, change: 0 }),
        Version::Two => {
            let at = RECORD_AT + 4;
            let Some(change) = read_number(disk, end, at, 8)? else {
                return Err(RecordError::Bad { at });
            };
            Ok(RecordHead { version, change })
        }
    }
}

/// The number of lengths behind this head.
fn read_count<D: Disk>(disk: &mut D, sizes: &Sizes, head: RecordHead) -> Result<u64, RecordError>
    requires sizes { ForSome (D.device disk.old).contents (λ files.
        size_in sizes.now journal ≡ length (files journal)) }
    requires version { head.version ≡ sizes.now.version }
    requires head { ForSome (D.device disk.old).contents (HasHead head) }

    // The number, where it is one of 0 to 4.
    ensures few { IfOk result (λ count. count ≤ 4) }
    ensures found { IfOk result (λ count. ForSome (D.device disk.old).contents (λ files.
        IsReadTo files sizes.now.version (Lengths head.change count [])
        (20 + head_size sizes.now.version))) }
    ensures refused { IfErr result (λ error. ForSome (D.device disk.old).contents (λ files.
        RefusesFor files error)) }

    // The disk is only read.
    ensures kept { OnlyReads (D.device disk.old) (D.device disk.new) }
    ensures faults { CountsFaults is_record_fault (D.device disk.old) (D.device disk.new) result }
{
    let at = RECORD_AT + head_bytes(sizes.version);
    let Some(count) = read_number(disk, sizes.get(FileId::Jnl), at, 4)? else {
        return Err(RecordError::Bad { at });
    };
    if count > 4 {
        return Err(RecordError::Bad { at });
    }
    Ok(count)
}

/// The record's head and new lengths, over files of these lengths.
pub(crate) fn read_lengths<D: Disk>(disk: &mut D, sizes: &Sizes) -> Result<NewLengths, RecordError>
    requires sizes { ForSome (D.device disk.old).contents (AreSizes sizes.now) }
    requires version { ForSome (D.device disk.old).contents (HasVersion sizes.now.version) }

    // The lengths, where they keep the rules.
    ensures within { IfOk result (λ read. AreWithin sizes.now read.ends) }
    ensures head { IfOk result (λ read. ForSome (D.device disk.old).contents (HasHead read.head)) }
    ensures found { IfOk result (λ read. ForSome (D.device disk.old).contents (λ files.
        HasLengths files read.at read.ends)) }
    ensures refused { IfErr result (λ error. ForSome (D.device disk.old).contents (λ files.
        RefusesFor files error)) }

    // The disk is only read.
    ensures kept { OnlyReads (D.device disk.old) (D.device disk.new) }
    ensures faults { CountsFaults is_record_fault (D.device disk.old) (D.device disk.new) result }
{
    let head = read_head(disk, sizes)?;
    let count = read_count(disk, sizes, head)?;
    let size = 4 + width(sizes.version) as u64;
    let mut ends = *sizes;
    let mut at = RECORD_AT + 4 + head_bytes(sizes.version);
    let mut least = 0;
    for _ in 0..count {
        let Some(entry) = read_length(disk, sizes, at, least)? else {
            return Err(RecordError::Bad { at });
        };
        ends.set(entry);
        least = entry.file.number() + 1;
        at += size;
    }
    Ok(NewLengths { head, ends, at })
}
