//! A list of commands, run over an area.
ghost use Rattle.std.specs.Prelude.{◌≡◌, [], ◌∷◌, ◌++◌, OnOk, OnErr, IfOk};
ghost use Rattle.jb_model.specs.Run.{area_of, run_of};
ghost use Rattle.jb_state.specs.State.{IsWellFormed};
ghost use Rattle.jb_model.specs.Step.{step as step_of};
ghost use Rattle.jb_state.specs.Tight.{tight_state};
ghost use Rattle.jb_plain.specs.Seen.{seen_state};
ghost use Rattle.jb_plain.specs.Small.{AreSmall};

use crate::edit::{PlainEdit, edit};
use crate::held::PlainState;
use crate::kill::kill;
use crate::mark::set_mark;
use crate::pack::pack;
use crate::post::{PlainDraft, post};
use crate::read::{peek, read};
use crate::relink::relink;
use jb_base::{AreaRules, OutOfMemory};
use jb_model::{Asked, Command, Reply};
use jb_state::Area;
use std::alloc::Global;
use std::marker::Model;

/// The replies to a list of commands, in order. Contracts see the list of them.
#[derive(Drop)]
pub struct ReplyList {
    items: Vec<Reply>,
}

impl Model for ReplyList {
    ghost use Rattle.std.specs.Prelude.{List};
    ghost use Rattle.jb_model.specs.declared.reply.Reply.{Reply};

    ghost Value = { List Reply };

    ghost view = { λ s. s.items.items };
}

impl ReplyList {
    /// The replies, in order.
    pub fn as_slice(&self) -> &[Reply]
        ensures { result.now ≡ self.now }
    {
        self.items.as_slice()
    }
}

/// The reply to one command, and what it does.
fn step(
    alloc: Global,
    rules: &AreaRules,
    state: &mut PlainState,
    asked: &Asked,
) -> Result<Reply, OutOfMemory>
    requires { AreSmall (seen_state state.old).slots }
    ensures { IfOk result (λ reply. record { reply = reply; state = seen_state state.new }
        ≡ step_of rules.now (seen_state state.old) asked.now.user asked.now.moment asked.now.command) }
{
    let user = &asked.user;
    match &asked.command {
        Command::Post {
            to,
            subject,
            text,
            reply_to,
            private,
        } => {
            let draft = PlainDraft {
                to: to.as_slice(),
                subject: subject.as_slice(),
                text: text.as_slice(),
                reply_to: *reply_to,
                private: *private,
            };
            post(alloc, rules, state, user, asked.moment, draft)
        }
        Command::Edit {
            number,
            subject,
            text,
        } => {
            let written = PlainEdit {
                number: *number,
                subject: subject.as_slice(),
                text: text.as_slice(),
            };
            edit(alloc, rules, state, user, written)
        }
        Command::Read { number } => read(alloc, rules, state, user, asked.moment, *number),
        Command::Peek { number } => peek(alloc, rules, state, user, *number),
        Command::Kill { number } => Ok(kill(rules, state, user, *number)),
        Command::SetMark { number } => set_mark(rules, state, user, *number),
        Command::Pack => pack(alloc, rules, state, user),
        Command::Relink => relink(alloc, rules, state, user),
    }
}

/// Runs the commands one after another over an area whose files hold nothing but its messages, and gives the area and the
/// replies.
pub fn run_slow(
    alloc: Global,
    rules: &AreaRules,
    area: Area,
    list: &[Asked],
) -> Result<(Area, ReplyList), OutOfMemory>
    requires { IsWellFormed rules.now.slots (tight_state area) }
    ensures replies { IfOk result (λ pair. pair.1 ≡ (run_of rules.now (tight_state area) list.now).replies) }
    ensures area { IfOk result (λ pair. pair.0
        ≡ area_of (run_of rules.now (tight_state area) list.now).state) }
{
    let mut state = PlainState::of(area, rules.slots);
    let mut replies = Vec::new(alloc);
    for asked in list {
        let reply = step(alloc, rules, &mut state, asked)?;
        replies.push(reply)?;
    }
    Ok((state.into_area(), ReplyList { items: replies }))
}
