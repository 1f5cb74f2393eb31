//! The texts of a base are copied, part by part, and the operator is told how far it is.
ghost use Rattle.std.specs.Prelude.{◌≡◌, ◌≤◌, ◌++◌, OnOk, codes, decimal};
ghost use Rattle.std.specs.Option.{ForSome};
ghost use Rattle.jb_backup.specs.Answers.{AnswersCopy};
ghost use Rattle.jb_backup.specs.Target.{HasBegun, HasFront, IsUnsigned};
ghost use Rattle.jb_disk.specs.Runs.{LeavesOnly};

use arrayvec::ArrayString;
use itoa::Buffer;
use jb_backup::{BackupError, Copier, PART_BYTES, Source};
use jb_disk::Disk;
use jb_host::Host;

/// A line of at most 96 bytes; it takes no memory.
type Line = ArrayString<96>;

/// After so many bytes the operator is told how far it is, and again after as many: 64 MiB.
const TOLD_BYTES: u64 = 67_108_864;

/// The line that tells how far it is, without its end.
fn copied_line(copied: u64, end: u64) -> Line {
    let mut digits = Buffer::new();
    let mut line = Line::new();
    line.push_str("copied ");
    line.push_str(digits.format(copied));
    line.push_str(" of ");
    line.push_str(digits.format(end));
    line.push_str(" bytes of texts");
    line
}

/// Tells how far it is, where that is a place to do so.
fn tell_copied<H: Host>(host: &mut H, copied: u64, end: u64)
    ensures { H.desk host.new ≡ H.desk host.old }
{
    if copied % TOLD_BYTES == 0 {
        let line = copied_line(copied, end);
        host.note(line.as_str());
    }
}

/// Copies the texts up to an end, part by part.
pub(crate) fn copy_texts<S: Source, E: Disk, H: Host>(
    source: &mut S,
    copier: &mut Copier,
    onto: &mut E,
    host: &mut H,
    end: u64,
) -> Result<(), BackupError>
    requires begun { HasBegun copier.old (E.device onto.old) }
    requires front { ForSome (S.source source.old).contents (λ files.
        HasFront copier.old files (E.device onto.old).contents) }

    // What is copied then is a beginning of the source's texts.
    ensures begun { OnOk result (HasBegun copier.new (E.device onto.new)) }
    ensures front { OnOk result (ForSome (S.source source.old).contents (λ files.
        HasFront copier.new files (E.device onto.new).contents)) }

    // What a crash leaves, which disk fails, and what is left of the source.
    ensures crash { LeavesOnly (E.device onto.old) (E.device onto.new) IsUnsigned }
    ensures answer { AnswersCopy (S.source source.old) (S.source source.new) (E.device onto.old)
        (E.device onto.new) result }
    ensures stays { S.stays source.old source.new }
    ensures told { H.desk host.new ≡ H.desk host.old }
{
    for _ in 0..end.div_ceil(PART_BYTES) {
        let more = copier.some(source, onto, end)?;
        if !more {
            break;
        }
        tell_copied(host, copier.copied(), end);
    }
    Ok(())
}
