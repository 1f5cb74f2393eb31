//! Bytes of the source are written into the target, part by part.
ghost use Rattle.std.specs.Prelude.{◌≡◌, ◌+◌, ◌<◌, ◌≤◌, ℕ, length, take, drop, OnOk};
ghost use Rattle.std.specs.Option.{ForSome, option_map};
ghost use Rattle.jb_limits.specs.declared.limits.TheConstants.{TEXTS_CEILING};
ghost use Rattle.jb_disk.specs.declared.file.FileId.TheVariants.{Jdt};
ghost use Rattle.jb_disk.specs.Device.{Turns};
ghost use Rattle.jb_disk.specs.Files.{ceiling_of, written};
ghost use Rattle.jb_disk.specs.Runs.{Keeps, Shows};
ghost use Rattle.jb_backup.specs.Answers.{AnswersCopy};
ghost use Rattle.jb_backup.specs.Copying.{IsCopyable, LeavesOthers, IsFilled, HasGood};
ghost use Rattle.jb_backup.specs.Target.{IsUnsigned, IsSameFrom, IsAllButSigned, HasBegun, HasFront, Reaches, backed_up};

use crate::{BackupError, Source};
use jb_disk::{Disk, FileId};
use jb_limits::{
    HEADERS_CEILING, INDEX_CEILING, JOURNAL_CEILING, LASTREAD_CEILING, SHADOW_CEILING,
    TEXTS_CEILING,
};

/// The greatest length of a file.
fn ceiling(file: FileId) -> u64
    ensures { result ≡ ceiling_of file }
{
    match file {
        FileId::Jhr => HEADERS_CEILING,
        FileId::Jdt => TEXTS_CEILING,
        FileId::Jdx => INDEX_CEILING,
        FileId::Jlr => LASTREAD_CEILING,
        FileId::Jnl => JOURNAL_CEILING,
        FileId::Ndt => SHADOW_CEILING,
    }
}

/// Copies as many bytes of a file as the chunk has, through it.
pub(crate) fn copy_chunk<S: Source, E: Disk>(
    source: &mut S,
    onto: &mut E,
    file: FileId,
    at: u64,
    chunk: &mut [u8],
) -> Result<(), BackupError>
    requires file { IsCopyable file at }
    requires inside { Reaches (S.source source.old).contents file (at + length chunk.old) }
    requires within { Reaches (E.device onto.old).contents file (at + length chunk.old) }

    // What is read, and what a read of the target gives then.
    ensures size { length chunk.new ≡ length chunk.old }
    ensures found { OnOk result (ForSome (S.source source.old).contents (λ files.
        chunk.new ≡ take (length chunk.old) (drop at (files file)))) }
    ensures told { OnOk result ((E.device onto.new).contents
        ≡ option_map (written file at chunk.new) (E.device onto.old).contents) }

    // What a crash leaves, and why it is refused.
    ensures unsigned { Keeps IsUnsigned (E.device onto.old) (E.device onto.new) }
    ensures others { LeavesOthers file (E.device onto.old) (E.device onto.new) }
    ensures answer { AnswersCopy (S.source source.old) (S.source source.new) (E.device onto.old)
        (E.device onto.new) result }
    ensures stays { S.stays source.old source.new }
{
    if source.file_read(file, at, chunk).is_err() {
        return Err(BackupError::SourceFault);
    }
    onto.write_at(file, at, chunk)?;
    Ok(())
}

/// Copies the bytes of a file from one place up to another, as many at once as the buffer has.
fn copy_range<S: Source, E: Disk>(
    source: &mut S,
    onto: &mut E,
    file: FileId,
    from: u64,
    end: u64,
    buffer: &mut [u8],
) -> Result<(), BackupError>
    requires file { IsCopyable file from }
    requires some { 0 < length buffer.old }
    requires order { from ≤ end }
    requires inside { from < end → Reaches (S.source source.old).contents file end }
    requires within { Reaches (E.device onto.old).contents file end }

    // What a read gives then.
    ensures size { length buffer.new ≡ length buffer.old }
    ensures told { OnOk result (ForSome (S.source source.old).contents (λ files. Turns (λ before now.
        IsFilled from end (files file) (before file) (now file))
        (E.device onto.old).contents (E.device onto.new).contents)) }

    // What a crash leaves, and why it is refused.
    ensures unsigned { Keeps IsUnsigned (E.device onto.old) (E.device onto.new) }
    ensures others { LeavesOthers file (E.device onto.old) (E.device onto.new) }
    ensures answer { AnswersCopy (S.source source.old) (S.source source.new) (E.device onto.old)
        (E.device onto.new) result }
    ensures stays { S.stays source.old source.new }
{
    let mut at = from;
    while at < end {
        let count = (end - at).min(buffer.len() as u64);
        copy_chunk(source, onto, file, at, &mut buffer[..count as usize])?;
        at += count;
    }
    Ok(())
}

/// Makes a file as long as the source's, copies it from a place on, and syncs it.
fn copy_file<S: Source, E: Disk>(
    source: &mut S,
    onto: &mut E,
    file: FileId,
    from: u64,
    buffer: &mut [u8],
) -> Result<(), BackupError>
    requires file { IsCopyable file from }
    requires some { 0 < length buffer.old }
    requires low { from ≤ ceiling_of file }
    requires front { Reaches (E.device onto.old).contents file from }

    // The file is as the backup's, where its front was.
    ensures size { length buffer.new ≡ length buffer.old }
    ensures whole { OnOk result (ForSome (S.source source.old).contents (λ files. (least : ℕ)
        → HasGood least from file files (E.device onto.old).contents
        → Shows (λ held. IsSameFrom least (backed_up files file) (held file)) (E.device onto.new))) }

    // What a crash leaves, and why it is refused.
    ensures unsigned { Keeps IsUnsigned (E.device onto.old) (E.device onto.new) }
    ensures others { LeavesOthers file (E.device onto.old) (E.device onto.new) }
    ensures answer { AnswersCopy (S.source source.old) (S.source source.new) (E.device onto.old)
        (E.device onto.new) result }
    ensures stays { S.stays source.old source.new }
{
    let Ok(len) = source.file_len(file) else {
        return Err(BackupError::SourceFault);
    };
    let end = len.min(ceiling(file)).max(from);
    onto.set_len(file, end)?;
    copy_range(source, onto, file, from, end, buffer)?;
    onto.sync(file)?;
    Ok(())
}

/// Copies what is left of the four files of the base, but for the first byte of the headers.
pub(crate) fn copy_files<S: Source, E: Disk>(
    source: &mut S,
    onto: &mut E,
    copied: u64,
    buffer: &mut [u8],
) -> Result<(), BackupError>
    requires some { 0 < length buffer.old }
    requires low { copied ≤ TEXTS_CEILING }
    requires begun { HasBegun copied (E.device onto.old) }
    requires front { ForSome (S.source source.old).contents (λ files.
        HasFront copied files (E.device onto.old).contents) }

    // All but the signature is there.
    ensures size { length buffer.new ≡ length buffer.old }
    ensures whole { OnOk result (ForSome (S.source source.old).contents (λ files.
        Shows (IsAllButSigned (backed_up files)) (E.device onto.new))) }

    // What a crash leaves, and why it is refused.
    ensures unsigned { Keeps IsUnsigned (E.device onto.old) (E.device onto.new) }
    ensures answer { AnswersCopy (S.source source.old) (S.source source.new) (E.device onto.old)
        (E.device onto.new) result }
    ensures stays { S.stays source.old source.new }
{
    copy_file(source, onto, FileId::Jdt, copied, buffer)?;
    copy_file(source, onto, FileId::Jhr, 1, buffer)?;
    copy_file(source, onto, FileId::Jdx, 0, buffer)?;
    copy_file(source, onto, FileId::Jlr, 0, buffer)
}
