//! The copier of a backup.
ghost use Rattle.std.specs.Prelude.{◌≡◌, length, IfErr, IfOk, OnOk};
ghost use Rattle.std.specs.Option.{ForSome};
ghost use Rattle.jb_disk.specs.declared.file.FileId.TheVariants.{Jdt};
ghost use Rattle.jb_disk.specs.Device.{CountsFaults, TellsAlike};
ghost use Rattle.jb_disk.specs.Runs.{LeavesOnly, Shows};
ghost use Rattle.jb_backup.specs.Answers.{AnswersCopy, CopiesSome, MayRefuse, is_target_fault};
ghost use Rattle.jb_backup.specs.Begin.{BeginsTiny};
ghost use Rattle.jb_backup.specs.Target.{AreEmpty, HasBegun, HasFront, IsBackupOf, IsSame, IsUnsigned, backed_up};

use crate::begin::{sync_all, test_empty};
use crate::copying::copy_files;
use crate::signing::{mark_unsigned, sign};
use crate::texts::copy_texts;
use crate::{BackupError, Source};
use jb_bytes::OutOfMemory;
use jb_disk::Disk;
use std::alloc::Global;
use std::marker::Model;

/// Bytes that are copied at once, at most.
pub const PART_BYTES: u64 = 1_048_576;

/// So many bytes, each 0.
fn zeros(alloc: Global, len: usize) -> Result<Vec<u8>, OutOfMemory>
    ensures { IfOk result (λ bytes. length bytes.items ≡ len) }
{
    Ok(vec![in alloc; 0; len]?)
}

/// Copies a base onto the empty disk of its backup: the texts in parts, each of which may be a turn of its own, and the rest
/// at the end. Between two parts the texts may grow. Contracts see how many bytes of the texts are copied. It holds
/// `PART_BYTES` of memory.
///
/// After a refusal the target is of no more use until it is emptied.
#[derive(Drop)]
pub struct Copier {
    buffer: Vec<u8>,
    copied: u64,
}

impl Model for Copier {
    ghost use Rattle.std.specs.Prelude.{◌≡◌, ℕ, ◌≤◌, length};
    ghost use Rattle.jb_limits.specs.declared.limits.TheConstants.{TEXTS_CEILING};
    ghost use Rattle.jb_backup.specs.declared.copier.TheConstants.{PART_BYTES};

    ghost Value = { ℕ };

    ghost view = { λ copier. copier.copied };

    ghost invariant = { λ copier. (length copier.buffer.items ≡ PART_BYTES) × (copier.copied ≤ TEXTS_CEILING) };
}

impl Copier {
    /// Takes its memory, and has copied nothing.
    pub fn new(alloc: Global) -> Result<Copier, OutOfMemory>
        ensures { IfOk result (λ copier. copier ≡ 0) }
    {
        let buffer = zeros(alloc, PART_BYTES as usize)?;
        Ok(Copier { buffer, copied: 0 })
    }

    /// How many bytes of the texts are copied.
    pub fn copied(&self) -> u64
        ensures { result ≡ self.now }
    {
        self.copied
    }

    /// Syncs the six files of the target, sees that each is empty, and makes its headers one byte that is not the
    /// signature's.
    pub fn begin<E: Disk>(&mut self, onto: &mut E) -> Result<(), BackupError>
        // An empty target is begun. `NotEmpty` names the lowest file that is not, and the target reads as before.
        ensures empty { OnOk result (ForSome (E.device onto.old).contents AreEmpty) }
        ensures copied { OnOk result (self.new ≡ 0) }
        ensures begun { OnOk result (HasBegun self.new (E.device onto.new)) }
        ensures refused { IfErr result (MayRefuse (E.device onto.old) (E.device onto.new)) }

        // What a crash leaves, and when the target fails.
        ensures crash { BeginsTiny (E.device onto.old) (E.device onto.new) }
        ensures faults { CountsFaults is_target_fault (E.device onto.old) (E.device onto.new) result }
        ensures alike { TellsAlike (E.device onto.old) (E.device onto.new) }
    {
        sync_all(onto)?;
        test_empty(onto)?;
        mark_unsigned(onto)?;
        self.again();
        Ok(())
    }

    /// Copies the next `PART_BYTES` of the texts that lie below `end` and below their end, or all that are left there, syncs
    /// them, and answers whether some are left.
    pub fn some<S: Source, E: Disk>(
        &mut self,
        source: &mut S,
        onto: &mut E,
        end: u64,
    ) -> Result<bool, BackupError>
        requires begun { HasBegun self.old (E.device onto.old) }

        // How far it is then. What was a beginning of the source's texts is a longer one.
        ensures begun { OnOk result (HasBegun self.new (E.device onto.new)) }
        ensures copies { IfOk result (λ more. ForSome (S.source source.old).contents (λ files.
            CopiesSome end (files Jdt) self.old self.new more)) }
        ensures front { OnOk result (ForSome (S.source source.old).contents (λ files.
            HasFront self.old files (E.device onto.old).contents
            → HasFront self.new files (E.device onto.new).contents)) }

        // What a crash leaves, which disk fails, and what is left of the source.
        ensures crash { LeavesOnly (E.device onto.old) (E.device onto.new) IsUnsigned }
        ensures answer { AnswersCopy (S.source source.old) (S.source source.new) (E.device onto.old)
            (E.device onto.new) result }
        ensures stays { S.stays source.old source.new }
    {
        let buffer = self.buffer.as_mut_slice();
        let reached = copy_texts(source, onto, self.copied, end, buffer)?;
        self.copied = reached.copied;
        Ok(reached.more)
    }

    /// Begins the texts anew: nothing of them is copied.
    pub fn again(&mut self)
        ensures { self.new ≡ 0 }
    {
        self.copied = 0;
    }

    /// Copies what is left of the texts, and the headers, the index and the lastread records, syncs them, and signs the
    /// headers. The texts that are copied are still a beginning of the source's.
    pub fn finish<S: Source, E: Disk>(
        &mut self,
        source: &mut S,
        onto: &mut E,
    ) -> Result<(), BackupError>
        requires begun { HasBegun self.old (E.device onto.old) }
        requires front { ForSome (S.source source.old).contents (λ files.
            HasFront self.old files (E.device onto.old).contents) }

        // The whole backup. At each moment a crash leaves it, or what is refused.
        ensures whole { OnOk result (ForSome (S.source source.old).contents (λ files.
            Shows (IsSame (backed_up files)) (E.device onto.new))) }
        ensures crash { ForSome (S.source source.old).contents (λ files.
            LeavesOnly (E.device onto.old) (E.device onto.new) (IsBackupOf (backed_up files))) }

        // Which disk fails, and what is left of the source.
        ensures answer { AnswersCopy (S.source source.old) (S.source source.new) (E.device onto.old)
            (E.device onto.new) result }
        ensures stays { S.stays source.old source.new }
    {
        copy_files(source, onto, self.copied, self.buffer.as_mut_slice())?;
        sign(onto)?;
        Ok(())
    }
}
