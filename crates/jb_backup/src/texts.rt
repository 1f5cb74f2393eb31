//! The next part of the texts.
ghost use Rattle.std.specs.Prelude.{◌≡◌, ◌≤◌, length, IfOk};
ghost use Rattle.std.specs.Option.{ForSome};
ghost use Rattle.jb_limits.specs.declared.limits.TheConstants.{TEXTS_CEILING};
ghost use Rattle.jb_disk.specs.declared.file.FileId.TheVariants.{Jdt};
ghost use Rattle.jb_disk.specs.Runs.{Keeps};
ghost use Rattle.jb_backup.specs.Answers.{AnswersCopy, CopiesSome};
ghost use Rattle.jb_backup.specs.Target.{HasBegun, HasFront, IsUnsigned};

use crate::copying::copy_chunk;
use crate::{BackupError, PART_BYTES, Source};
use jb_disk::{Disk, FileId};
use jb_limits::TEXTS_CEILING;

/// How far the texts are copied, and whether some are left.
#[derive(Clone, Copy)]
pub(crate) struct Reached {
    pub(crate) copied: u64,
    pub(crate) more: bool,
}

/// Copies the next part of the texts below an end, or all that are left there, and syncs them.
pub(crate) fn copy_texts<S: Source, E: Disk>(
    source: &mut S,
    onto: &mut E,
    copied: u64,
    end: u64,
    buffer: &mut [u8],
) -> Result<Reached, BackupError>
    requires size { length buffer.old ≡ PART_BYTES }
    requires low { copied ≤ TEXTS_CEILING }
    requires begun { HasBegun copied (E.device onto.old) }

    // How far it is then. What was a beginning of the source's texts is a longer one.
    ensures size { length buffer.new ≡ length buffer.old }
    ensures low { IfOk result (λ reached. reached.copied ≤ TEXTS_CEILING) }
    ensures begun { IfOk result (λ reached. HasBegun reached.copied (E.device onto.new)) }
    ensures copies { IfOk result (λ reached. ForSome (S.source source.old).contents (λ files.
        CopiesSome end (files Jdt) copied reached.copied reached.more)) }
    ensures front { IfOk result (λ reached. ForSome (S.source source.old).contents (λ files.
        HasFront copied files (E.device onto.old).contents
        → HasFront reached.copied files (E.device onto.new).contents)) }

    // What a crash leaves, and why it is refused.
    ensures unsigned { Keeps IsUnsigned (E.device onto.old) (E.device onto.new) }
    ensures answer { AnswersCopy (S.source source.old) (S.source source.new) (E.device onto.old)
        (E.device onto.new) result }
    ensures stays { S.stays source.old source.new }
{
    let Ok(len) = source.file_len(FileId::Jdt) else {
        return Err(BackupError::SourceFault);
    };
    let stop = len.min(end).min(TEXTS_CEILING);
    if copied >= stop {
        return Ok(Reached {
            copied,
            more: false,
        });
    }
    let count = (stop - copied).min(PART_BYTES);
    let after = copied + count;
    onto.set_len(FileId::Jdt, after)?;
    let part = &mut buffer[..count as usize];
    copy_chunk(source, onto, FileId::Jdt, copied, part)?;
    onto.sync(FileId::Jdt)?;
    Ok(Reached {
        copied: after,
        more: after < stop,
    })
}
