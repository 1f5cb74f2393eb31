//! What is asked of an open area: each call, and how it leaves the area.

ghost use Rattle.std.specs.Prelude.{OnErr, OnOk};
ghost use Rattle.jb_area.specs.Area.{HasBegun, HasDoubt};
ghost use Rattle.jb_area.specs.Calls.{HasRest};
ghost use Rattle.trial_parts.specs.Leaves.{LeavesAtRest, LeavesBegun, LeavesEnded};

use jb_area::{AreaError, OpenArea};
use jb_decide::{LentDraft, LentEdit};
use jb_disk::Disk;
use jb_journal::Stopped;
use jb_model::{Command, Reply};
use std::alloc::Global;
use trial_rows::{Caller, MOMENT};

/// What a user asks.
#[derive(Drop)]
pub(crate) struct Deed {
    pub caller: Caller,
    pub command: Command,
}

/// The reply to a command in one piece, by the call of its own.
pub(crate) fn ask<D: Disk>(
    alloc: Global,
    area: &mut OpenArea<D>,
    deed: &Deed,
) -> Result<Reply, AreaError>
    requires { HasRest D.device area.old }
    ensures { LeavesAtRest D.device area.new result }
{
    match &deed.command {
        Command::Post {
            to,
            subject,
            text,
            reply_to,
            private,
        } => {
            let draft = LentDraft {
                to: to.as_slice(),
                subject: subject.as_slice(),
                text: text.as_slice(),
                reply_to: *reply_to,
                private: *private,
            };
            area.post(alloc, &deed.caller.user, MOMENT, draft)
        }
        Command::Edit {
            number,
            subject,
            text,
        } => {
            let edit = LentEdit {
                number: *number,
                subject: subject.as_slice(),
                text: text.as_slice(),
            };
            area.edit(alloc, &deed.caller.user, edit)
        }
        Command::Read { number } => area.read(alloc, &deed.caller.user, MOMENT, *number),
        Command::Peek { number } => area.peek(alloc, &deed.caller.user, *number),
        Command::Kill { number } => area.kill(&deed.caller.user, *number),
        Command::SetMark { number } => area.set_mark(&deed.caller.user, *number),
        Command::Relink => area.relink(alloc, &deed.caller.user),
        Command::Pack => area.pack(alloc, &deed.caller.user),
    }
}

/// Begins a command.
pub(crate) fn begin<D: Disk>(
    alloc: Global,
    area: &mut OpenArea<D>,
    deed: &Deed,
) -> Result<(), AreaError>
    requires { HasRest D.device area.old }
    ensures { LeavesBegun D.device area.new result }
{
    area.begin(alloc, &deed.caller.user, MOMENT, &deed.command)
}

/// Finishes the command that is begun.
pub(crate) fn finish<D: Disk>(area: &mut OpenArea<D>) -> Result<Reply, Stopped>
    requires { HasBegun D.device area.old }
    ensures { LeavesEnded D.device area.new result }
{
    area.finish()
}

/// Abandons the command that is begun.
pub(crate) fn abandon<D: Disk>(area: &mut OpenArea<D>)
    requires { HasBegun D.device area.old }
    ensures { HasRest D.device area.new }
{
    area.abandon();
}

/// Settles what a fault left open, and answers whether its change stands.
pub(crate) fn reopen<D: Disk>(area: &mut OpenArea<D>) -> Result<bool, Stopped>
    requires { HasDoubt D.device area.old }
    ensures settled { OnOk result (HasRest D.device area.new) }
    ensures still { OnErr result (HasDoubt D.device area.new) }
{
    match area.reopen() {
        Ok(stands) => Ok(stands),
        Err(stopped) => Err(stopped),
    }
}
