//! The applying of the journal's record.
ghost use Rattle.std.specs.Prelude.{◌≡◌, ◌+◌, ◌<◌, ◌≤◌, Some, length, IsSome, OnOk, IfErr, IfOk, List};
ghost use Rattle.std.specs.Option.{ForSome, option_map};
ghost use Rattle.jb_disk.specs.declared.file.FileId.{FileId};
ghost use Rattle.jb_disk.specs.declared.piece.Length.{Length};
ghost use Rattle.jb_disk.specs.declared.piece.Piece.{Piece};
ghost use Rattle.jb_disk.specs.Device.{Turns, TellsAlike, CountsFaults, is_disk_fault};
ghost use Rattle.jb_disk.specs.Files.{Files, InFile, IsResized};
ghost use Rattle.jb_disk.specs.Runs.{Keeps};
ghost use Rattle.jb_redo.specs.Applying.{IsSoundPart, LiesWithin, copied, copied_chunk, AreResized, KeepsInRange, KeepsWay, ArePieced, HasPieced, IsFault};
ghost use Rattle.jb_redo.specs.Answers.{is_record_fault};
ghost use Rattle.jb_redo.specs.Laws.{HasOneReplayAtMost, ReplayOnTheWay};
ghost use Rattle.jb_redo.specs.Reading.{HasRecord};
ghost use Rattle.jb_redo.specs.Replay.{IsAppliedTo};
ghost use Rattle.jb_redo.specs.OnTheWay.{IsOnTheWay};
ghost use Rattle.jb_redo.specs.Rules.{sizes_of, new_sizes};
ghost use Rattle.jb_redo.specs.Walk.{size_in, AreSizes, AreWithin, HasLengths};

use crate::RecordError;
use crate::field::{has_mark, read_number};
use crate::layout::end_mark;
use crate::lengths::{NewLengths, read_lengths};
use crate::part::Part;
use crate::piece::read_part;
use crate::sizes::Sizes;
use jb_disk::{Disk, DiskFailed, FileId};

/// Bytes that go from file to file at once, at most.
const CHUNK_BYTES: usize = 16_384;

/// Copies so many bytes of a part as the chunk has, behind those that are copied.
fn copy_chunk<D: Disk>(
    disk: &mut D,
    part: &Part,
    done: u64,
    chunk: &mut [u8],
) -> Result<(), DiskFailed>
    requires sound { IsSoundPart part.now }
    requires behind { done + length chunk.old ≤ part.now.len }
    requires room { ForSome (D.device disk.old).contents (LiesWithin part.now) }

    // What a read gives then.
    ensures size { length chunk.new ≡ length chunk.old }
    ensures ok { OnOk result ((D.device disk.new).contents
        ≡ option_map (copied_chunk part.now done (length chunk.old)) (D.device disk.old).contents) }

    // What a crash leaves, that the disk tells as before, and why it is refused.
    ensures images { KeepsInRange part.now.to (part.now.to_at + done) (length chunk.old)
        (D.device disk.old) (D.device disk.new) }
    ensures alike { TellsAlike (D.device disk.old) (D.device disk.new) }
    ensures faults { CountsFaults is_disk_fault (D.device disk.old) (D.device disk.new) result }
{
    disk.read_at(part.from, part.from_at + done, chunk)?;
    disk.write_at(part.to, part.to_at + done, chunk)
}

/// Copies all bytes of a part, as many at once as the buffer has.
fn copy_part<D: Disk>(disk: &mut D, part: &Part, buffer: &mut [u8]) -> Result<(), DiskFailed>
    requires sound { IsSoundPart part.now }
    requires some { 0 < length buffer.old }
    requires room { ForSome (D.device disk.old).contents (LiesWithin part.now) }

    // What a read gives then.
    ensures size { length buffer.new ≡ length buffer.old }
    ensures ok { OnOk result ((D.device disk.new).contents
        ≡ option_map (copied part.now part.now.len) (D.device disk.old).contents) }

    // What a crash leaves, that the disk tells as before, and why it is refused.
    ensures images { KeepsInRange part.now.to part.now.to_at part.now.len (D.device disk.old)
        (D.device disk.new) }
    ensures alike { TellsAlike (D.device disk.old) (D.device disk.new) }
    ensures faults { CountsFaults is_disk_fault (D.device disk.old) (D.device disk.new) result }
{
    let mut done = 0;
    while done < part.len {
        let count = (part.len - done).min(buffer.len() as u64);
        copy_chunk(disk, part, done, &mut buffer[..count as usize])?;
        done += count;
    }
    Ok(())
}

/// Sets the length of one file, where it is a new one.
fn set_one<D: Disk>(
    disk: &mut D,
    file: FileId,
    sizes: &Sizes,
    ends: &Sizes,
) -> Result<(), DiskFailed>
    requires within { AreWithin sizes.now ends.now }
    requires size { ForSome (D.device disk.old).contents (λ files.
        size_in sizes.now file ≡ length (files file)) }

    // What a read gives then.
    ensures ok { OnOk result (Turns (InFile file (IsResized (size_in ends.now file)))
        (D.device disk.old).contents (D.device disk.new).contents) }

    // What a crash leaves, that the disk tells as before, and why it is refused.
    ensures images { (lengths : List Length) (pieces : List Piece) (start : Files)
        → new_sizes lengths (sizes_of start) file ≡ size_in ends.now file
        → Keeps (IsOnTheWay lengths pieces start) (D.device disk.old) (D.device disk.new) }
    ensures alike { TellsAlike (D.device disk.old) (D.device disk.new) }
    ensures faults { CountsFaults is_disk_fault (D.device disk.old) (D.device disk.new) result }
{
    let len = ends.get(file);
    if len == sizes.get(file) {
        return Ok(());
    }
    disk.set_len(file, len)
}

/// Sets the lengths of the files of the base, where they are new.
fn set_lengths<D: Disk>(disk: &mut D, sizes: &Sizes, ends: &Sizes) -> Result<(), DiskFailed>
    requires within { AreWithin sizes.now ends.now }
    requires sizes { ForSome (D.device disk.old).contents (AreSizes sizes.now) }

    // What a read gives then.
    ensures ok { OnOk result (Turns (AreResized ends.now) (D.device disk.old).contents
        (D.device disk.new).contents) }

    // What a crash leaves, that the disk tells as before, and why it is refused.
    ensures images { (lengths : List Length) (pieces : List Piece) (start : Files)
        → ((file : FileId) → new_sizes lengths (sizes_of start) file ≡ size_in ends.now file)
        → Keeps (IsOnTheWay lengths pieces start) (D.device disk.old) (D.device disk.new) }
    ensures alike { TellsAlike (D.device disk.old) (D.device disk.new) }
    ensures faults { CountsFaults is_disk_fault (D.device disk.old) (D.device disk.new) result }
{
    set_one(disk, FileId::Jhr, sizes, ends)?;
    set_one(disk, FileId::Jdt, sizes, ends)?;
    set_one(disk, FileId::Jdx, sizes, ends)?;
    set_one(disk, FileId::Jlr, sizes, ends)?;
    Ok(())
}

/// Writes the record's pieces over the files, which have their new lengths, and gives the place behind them.
fn apply_pieces<D: Disk>(disk: &mut D, lengths: &NewLengths) -> Result<u64, RecordError>
    requires lengths { ForSome (D.device disk.old).contents (λ files.
        HasLengths files lengths.now.at lengths.now.ends) }
    requires sized { ForSome (D.device disk.old).contents (AreSizes lengths.now.ends) }
    requires record { ForSome (D.device disk.old).contents HasRecord }

    // What a read gives then.
    ensures ok { IfOk result (λ at. Turns (λ files now. HasPieced files at lengths.now.ends now)
        (D.device disk.old).contents (D.device disk.new).contents) }

    // What a crash leaves, that the disk tells as before, and why it is refused.
    ensures images { KeepsWay (D.device disk.old) (D.device disk.new) }
    ensures fault { IfErr result (λ error. ForSome (D.device disk.old).contents (λ _. IsFault error)) }
    ensures alike { TellsAlike (D.device disk.old) (D.device disk.new) }
    ensures faults { CountsFaults is_record_fault (D.device disk.old) (D.device disk.new) result }
{
    let end = lengths.ends.get(FileId::Jnl);
    let mut at = lengths.at;
    let Some(count) = read_number(disk, end, at, 4)? else {
        return Err(RecordError::Bad { at });
    };
    at += 4;
    let mut buffer = [0; CHUNK_BYTES];
    for _ in 0..count {
        let Some(part) = read_part(disk, &lengths.ends, &lengths.ends, at)? else {
            return Err(RecordError::Bad { at });
        };
        copy_part(disk, &part, &mut buffer)?;
        at = part.behind;
    }
    Ok(at)
}

/// Writes the record's pieces over the files, which have their new lengths, up to the record's end.
fn write_pieces<D: Disk>(disk: &mut D, lengths: &NewLengths) -> Result<(), RecordError>
    requires lengths { ForSome (D.device disk.old).contents (λ files.
        HasLengths files lengths.now.at lengths.now.ends) }
    requires sized { ForSome (D.device disk.old).contents (AreSizes lengths.now.ends) }
    requires record { ForSome (D.device disk.old).contents HasRecord }

    // What a read gives then.
    ensures ok { OnOk result (Turns ArePieced (D.device disk.old).contents (D.device disk.new).contents) }

    // What a crash leaves, that the disk tells as before, and why it is refused.
    ensures images { KeepsWay (D.device disk.old) (D.device disk.new) }
    ensures fault { IfErr result (λ error. ForSome (D.device disk.old).contents (λ _. IsFault error)) }
    ensures alike { TellsAlike (D.device disk.old) (D.device disk.new) }
    ensures faults { CountsFaults is_record_fault (D.device disk.old) (D.device disk.new) result }
{
    let at = apply_pieces(disk, lengths)?;
    let end = end_mark(lengths.ends.version);
    if !has_mark(disk, lengths.ends.get(FileId::Jnl), at, &end)? {
        return Err(RecordError::Bad { at });
    }
    Ok(())
}

/// The journal's record, done.
fn apply<D: Disk>(disk: &mut D) -> Result<(), RecordError>
    requires { ForSome (D.device disk.old).contents HasRecord }

    // What a read gives then.
    ensures ok { OnOk result (ForSome (D.device disk.old).contents (λ files.
        IsAppliedTo files (D.device disk.new).contents)) }
    ensures told { OnOk result (IsSome (D.device disk.old).contents → IsSome (D.device disk.new).contents) }

    // What a crash leaves, that the disk tells as before, and why it is refused.
    ensures images { KeepsWay (D.device disk.old) (D.device disk.new) }
    ensures fault { IfErr result (λ error. ForSome (D.device disk.old).contents (λ _. IsFault error)) }
    ensures alike { TellsAlike (D.device disk.old) (D.device disk.new) }
    ensures faults { CountsFaults is_record_fault (D.device disk.old) (D.device disk.new) result }
{
    let sizes = Sizes::of(disk)?;
    let lengths = read_lengths(disk, &sizes)?;
    set_lengths(disk, &sizes, &lengths.ends)?;
    write_pieces(disk, &lengths)
}

/// Does what the journal's record says: sets the new lengths, then writes the pieces in order, through one buffer of
/// 16,384 bytes on the stack. It takes no memory, syncs nothing and leaves the gate as it is.
///
/// Where the disk tells its files they are to hold a record, as [`test_record`](crate::test_record) answers.
/// `StoreFault` may come at any point. After it, and after a crash at any moment, the journal still holds the record,
/// and applying it again comes to the same files, where each byte past an old end is written by some piece. `Bad` comes
/// only from a disk that tells nothing, when it reads otherwise than before. Six questions for a length and a read of the version; a
/// read for each field and two for a copy; a change of each new length; a read and a write for each 16,384 bytes of a piece.
pub fn apply_record<D: Disk>(disk: &mut D) -> Result<(), RecordError>
    requires { ForSome (D.device disk.old).contents HasRecord }

    // What a read gives then, and that a disk that told its files tells them still, whatever the pieces write.
    ensures ok { OnOk result (ForSome (D.device disk.old).contents (λ files.
        IsAppliedTo files (D.device disk.new).contents)) }
    ensures told { OnOk result (IsSome (D.device disk.old).contents → IsSome (D.device disk.new).contents) }

    // What a crash leaves at each moment: files on their way, which replay as those at the start. The journal and the shadow
    // of the texts are as they were in them.
    ensures images { KeepsWay (D.device disk.old) (D.device disk.new) }
    ensures same { ReplayOnTheWay × HasOneReplayAtMost }

    // Why it is refused.
    ensures fault { IfErr result (λ error. ForSome (D.device disk.old).contents (λ _. IsFault error)) }
    ensures faults { CountsFaults is_record_fault (D.device disk.old) (D.device disk.new) result }

    // A disk that tells its files goes on telling them, and one that tells nothing goes on so, whatever is answered.
    ensures alike { TellsAlike (D.device disk.old) (D.device disk.new) }
{
    apply(disk)
}
