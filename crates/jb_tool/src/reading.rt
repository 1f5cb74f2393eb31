//! A base is recovered and read.
ghost use Rattle.std.specs.Prelude.{IfErr, IfOk};
ghost use Rattle.std.specs.Option.{ForSome};
ghost use Rattle.jb_disk.specs.Device.{CountsFaults};
ghost use Rattle.jb_limits.specs.declared.limits.TheConstants.{MOST_SLOTS};
ghost use Rattle.jb_image.specs.Answers.{OpensTo};
ghost use Rattle.jb_journal.specs.Recover.{IsFound};
ghost use Rattle.jb_state.specs.Sound.{IsSound};
ghost use Rattle.jb_tool.specs.Recovered.{IsRecoveredTo, KeepsReplay, RefusesReading, is_tool_fault};

use crate::ToolError;
use jb_base::MOST_SLOTS;
use jb_disk::Disk;
use jb_image::decode;
use jb_journal::{Recovered, recover};
use jb_state::Loaded;
use std::alloc::Global;

/// A base that was recovered and read.
#[derive(Drop)]
pub(crate) struct ReadBase {
    /// What recovery found behind the gate.
    pub(crate) found: Recovered,
    /// What the files hold then.
    pub(crate) loaded: Loaded,
}

/// What a base holds, once the change is done that waits in its journal. Nothing else is written.
pub(crate) fn read_base<D: Disk>(alloc: Global, disk: &mut D) -> Result<ReadBase, ToolError>
    // What recovery found, and what the recovered files hold, or why they hold nothing.
    ensures found { IfOk result (λ base. ForSome (D.device disk.old).contents (IsFound base.found)) }
    ensures opened { IfOk result (λ base. ForSome (D.device disk.old).contents (λ was.
        IsRecoveredTo (λ files. OpensTo MOST_SLOTS files base.loaded) was (D.device disk.new))) }
    ensures refused { IfErr result (RefusesReading (D.device disk.old) (D.device disk.new)) }

    // On every disk.
    ensures sound { IfOk result (λ base. IsSound MOST_SLOTS base.loaded) }
    ensures crash { KeepsReplay (D.device disk.old) (D.device disk.new) }
    ensures faults { CountsFaults is_tool_fault (D.device disk.old) (D.device disk.new) result }
{
    let found = recover(disk)?;
    let loaded = decode(alloc, disk, MOST_SLOTS)?;
    Ok(ReadBase { found, loaded })
}
