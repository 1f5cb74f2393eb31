//! The calls of an open area by their commands.

use crate::{AreaError, OpenArea};
use jb_base::User;
use jb_decide::{LentDraft, LentEdit};
use jb_disk::Disk;
use jb_model::{Command, Reply};
use std::alloc::Global;

impl<D: Disk> OpenArea<D> {
    ghost use Rattle.std.specs.Prelude.{◌≤◌, length};
    ghost use Rattle.jb_limits.specs.declared.limits.TheConstants.{MOST_NAME_BYTES};
    ghost use Rattle.jb_area.specs.Calls.{BeginsCall, HasRest, MeetsCall};

    /// Begins a command: decides its reply, takes all the memory and reads all that it needs, and writes nothing. Then
    /// [`coming`](OpenArea::coming) lends the reply, and [`finish`](OpenArea::finish) or [`abandon`](OpenArea::abandon) ends
    /// the call.
    pub fn begin(
        &mut self,
        alloc: Global,
        user: &User,
        moment: u32,
        command: &Command,
    ) -> Result<(), AreaError>
        requires rests { HasRest D.device self.old }
        requires name { length user.now.name ≤ MOST_NAME_BYTES }
        ensures begins { BeginsCall D.device self.old self.new user.now moment command.now result }
    {
        match command {
            Command::Post {
                to,
                subject,
                text,
                reply_to,
                private,
            } => {
                let draft = LentDraft {
                    to: to.as_slice(),
                    subject: subject.as_slice(),
                    text: text.as_slice(),
                    reply_to: *reply_to,
                    private: *private,
                };
                self.begin_post(alloc, user, moment, draft)
            }
            Command::Edit {
                number,
                subject,
                text,
            } => {
                let edit = LentEdit {
                    number: *number,
                    subject: subject.as_slice(),
                    text: text.as_slice(),
                };
                self.begin_edit(alloc, user, edit)
            }
            Command::Read { number } => self.begin_read(alloc, user, moment, *number),
            Command::Peek { number } => self.begin_peek(alloc, user, *number),
            Command::Kill { number } => {
                self.begin_kill(user, *number);
                Ok(())
            }
            Command::SetMark { number } => {
                self.begin_mark(user, *number);
                Ok(())
            }
            Command::Relink => self.begin_relink(alloc, user),
            Command::Pack => self.begin_pack(alloc, user),
        }
    }

    /// A command from its beginning to its end: as [`begin`](OpenArea::begin) and [`finish`](OpenArea::finish) in one.
    pub fn run(
        &mut self,
        alloc: Global,
        user: &User,
        moment: u32,
        command: &Command,
    ) -> Result<Reply, AreaError>
        requires rests { HasRest D.device self.old }
        requires name { length user.now.name ≤ MOST_NAME_BYTES }
        ensures meets { MeetsCall D.device self.old self.new user.now moment command.now result }
    {
        match self.begin(alloc, user, moment, command) {
            Ok(()) => self.done(),
            Err(error) => Err(error),
        }
    }
}
