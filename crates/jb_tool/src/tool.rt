//! The tools by their names.
ghost use Rattle.jb_tool.specs.Answers.{AnswersTool, KeepsUnderTool};

use crate::{ToolError, check, list, make, pack, relink};
use jb_base::Bytes;
use jb_disk::Disk;
use std::alloc::Global;

/// A tool that works on the files of one base.
#[derive(Clone, Copy, PartialEq, Eq)]
pub enum Tool {
    /// Lists the live messages: [`list`].
    List,
    /// Counts what the base holds, and says whether its links are right: [`check`].
    Check,
    /// Makes an empty base: [`make`].
    Make,
    /// Computes the reply links anew: [`relink`].
    Relink,
    /// Drops the killed messages and closes the gaps: [`pack`].
    Pack,
}

/// Uses a tool on the base that the disk has, at a moment in seconds since 1970.
pub fn run<D: Disk>(
    alloc: Global,
    disk: D,
    tool: Tool,
    moment: u32,
) -> (D, Result<Bytes, ToolError>)
    ensures answer { AnswersTool tool moment (D.device disk) (D.device result.0) result.1 }
    ensures crash { KeepsUnderTool tool moment (D.device disk) (D.device result.0) }
{
    match tool {
        Tool::List => list(alloc, disk),
        Tool::Check => check(alloc, disk),
        Tool::Make => make(alloc, disk, moment),
        Tool::Relink => relink(alloc, disk),
        Tool::Pack => pack(alloc, disk),
    }
}
