//! The tool `make`.
ghost use Rattle.std.specs.Prelude.{◌≡◌, ◌==◌, ◌&&◌, IfErr, IfOk, IsSome, OnOk};
ghost use Rattle.std.specs.Option.{ForSome};
ghost use Rattle.jb_disk.specs.Device.{CountsFaults, OnlyReads, is_disk_fault};
ghost use Rattle.jb_disk.specs.Runs.{IsAllSynced, LeavesOnly};
ghost use Rattle.jb_tool.specs.Making.{AnswersMake, AreNoneOrNew, AreShutAndEmpty, HasNewBase, IsFoundEmpty, IsRoom, KeepsOrMakes, RefusesMaking};
ghost use Rattle.jb_tool.specs.Recovered.{IsRecoveredTo, KeepsReplay, is_tool_fault};

use crate::ToolError;
use jb_base::{Bytes, OutOfMemory};
use jb_change::put_base;
use jb_disk::{Disk, DiskFailed, FileId, Redo};
use jb_journal::{Stopped, commit, prepare, recover};
use jb_record::FIXED_HEADER_BYTES;
use std::alloc::Global;

/// Room for the change that makes a base.
fn room(alloc: Global) -> Result<Redo, OutOfMemory>
    ensures { IfOk result IsRoom }
{
    let mut redo = Redo::new(alloc);
    redo.reserve(4, 1, FIXED_HEADER_BYTES as u64)?;
    Ok(redo)
}

/// Whether four lengths are 0.
fn are_zero(headers: u64, texts: u64, index: u64, marks: u64) -> bool
    ensures { result ≡ (headers == 0 && (texts == 0 && (index == 0 && marks == 0))) }
{
    headers == 0 && texts == 0 && index == 0 && marks == 0
}

/// Whether the four files of a base are empty.
fn is_empty<D: Disk>(disk: &mut D) -> Result<bool, DiskFailed>
    ensures found { IfOk result (λ empty. ForSome (D.device disk.old).contents (IsFoundEmpty empty)) }
    ensures kept { OnlyReads (D.device disk.old) (D.device disk.new) }
    ensures faults { CountsFaults is_disk_fault (D.device disk.old) (D.device disk.new) result }
{
    let headers = disk.len(FileId::Jhr)?;
    let texts = disk.len(FileId::Jdt)?;
    let index = disk.len(FileId::Jdx)?;
    let marks = disk.len(FileId::Jlr)?;
    Ok(are_zero(headers, texts, index, marks))
}

/// Does the change that waits in the journal, and refuses a base of which a file is not empty then.
fn recover_none<D: Disk>(disk: &mut D) -> Result<(), ToolError>
    // The recovered files, which are empty, or why not.
    ensures empty { OnOk result (ForSome (D.device disk.old).contents (λ was.
        IsRecoveredTo AreShutAndEmpty was (D.device disk.new))) }
    ensures now { OnOk result (ForSome (D.device disk.new).contents AreShutAndEmpty) }
    ensures synced { OnOk result (IsAllSynced (D.device disk.new)) }
    ensures told { OnOk result (IsSome (D.device disk.old).contents → IsSome (D.device disk.new).contents) }
    ensures refused { IfErr result (RefusesMaking (D.device disk.old) (D.device disk.new)) }

    // On every disk.
    ensures crash { KeepsReplay (D.device disk.old) (D.device disk.new) }
    ensures faults { CountsFaults is_tool_fault (D.device disk.old) (D.device disk.new) result }
{
    let _ = recover(disk)?;
    if is_empty(disk)? {
        Ok(())
    } else {
        Err(ToolError::AlreadyThere)
    }
}

/// Makes a base of empty files by one change, for which there is room.
fn write_base<D: Disk>(disk: &mut D, redo: &mut Redo, moment: u32) -> Result<(), Stopped>
    requires room { IsRoom redo.old }
    requires empty { ForSome (D.device disk.old).contents AreShutAndEmpty }
    requires synced { IsAllSynced (D.device disk.old) }
    ensures made { OnOk result (ForSome (D.device disk.old).contents (λ _.
        HasNewBase moment (D.device disk.new))) }

    // A stop is a fault, and at any moment a crash leaves empty files or the base.
    ensures faults { CountsFaults is_disk_fault (D.device disk.old) (D.device disk.new) result }
    ensures crash { ForSome (D.device disk.old).contents (λ _.
        LeavesOnly (D.device disk.old) (D.device disk.new) (AreNoneOrNew moment)) }
{
    put_base(redo, moment);
    prepare(disk)?;
    commit(disk, redo, 1)
}

/// Makes an empty base of the files that the disk has.
fn make_base<D: Disk>(alloc: Global, disk: &mut D, moment: u32) -> Result<Bytes, ToolError>
    ensures answer { AnswersMake moment (D.device disk.old) (D.device disk.new) result }
    ensures crash { KeepsOrMakes moment (D.device disk.old) (D.device disk.new) }
    ensures faults { CountsFaults is_tool_fault (D.device disk.old) (D.device disk.new) result }
{
    let mut redo = room(alloc)?;
    recover_none(disk)?;
    write_base(disk, &mut redo, moment)?;
    Ok(Bytes::new(alloc))
}

/// Makes an empty base, with base number 1 and created at this moment, once the change is done that waits in the journal. It
/// prints nothing. Refused as `AlreadyThere` exactly where one of the four files of a base is not empty then; nothing more is
/// written. The room for the change is taken before anything is written.
///
/// Where it is stopped, by a crash or by a fault, the files open to the empty area, or are empty still, so that they are
/// refused as a base with a short header, and it may be called again.
pub fn make<D: Disk>(alloc: Global, disk: D, moment: u32) -> (D, Result<Bytes, ToolError>)
    ensures answer { AnswersMake moment (D.device disk) (D.device result.0) result.1 }
    ensures crash { KeepsOrMakes moment (D.device disk) (D.device result.0) }
    ensures faults { CountsFaults is_tool_fault (D.device disk) (D.device result.0) result.1 }
{
    let mut disk = disk;
    let answer = make_base(alloc, &mut disk, moment);
    (disk, answer)
}
