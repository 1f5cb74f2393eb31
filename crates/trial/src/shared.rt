//! A shared area with its passes.
ghost use Rattle.std.specs.Prelude.{◌<◌, ◌≤◌, IfOk, ◌+◌};
ghost use Rattle.jb_limits.specs.declared.limits.TheConstants.{MOST_NODES};
ghost use Rattle.jb_area.specs.Calls.{HasRest};
ghost use Rattle.jb_shared.specs.Areas.{IsOf};

use crate::backing::{Backup, put_backup};
use crate::nodes::follow_all;
use crate::noted::{Noted, Plan};
use crate::showing::{put_answer, put_count, put_reply};
use jb_area::OpenArea;
use jb_disk::{Disk, MemDisk};
use jb_model::Command;
use jb_shared::{CloseError, Pass, SharedArea};
use jb_state::Question;
use std::alloc::Global;
use std::marker::Model;
use std::sync::{Mutex, Wait};
use std::thread::Threads;
use trial_rows::{Caller, MOMENT, Row, RowError, Words};

/// What is asked of a shared area.
#[derive(Drop)]
pub(crate) enum Ask {
    Call(Command),
    Look(Question),
    Count,
}

/// A shared area and the passes of its nodes, in their order. Contracts see nothing of it. It is not `Drop`: end it by `end`.
pub(crate) struct Shared<D: Disk> {
    area: SharedArea<D>,
    passes: Vec<Pass>,
}

impl<D: Disk> Model for Shared<D> {
    ghost use Rattle.std.specs.Prelude.{All};
    ghost use Rattle.jb_shared.specs.Areas.{IsOf};

    ghost Value = { Unit {0} };

    ghost view = { λ s. tt };

    ghost invariant = { λ s. All (IsOf s.area) s.passes.items };
}

// What is answered, or why there is no answer, in words.
fn put_told<D: Disk, R: Wait>(
    rt: &R,
    area: &SharedArea<D>,
    pass: &mut Pass,
    caller: &Caller,
    ask: &Ask,
    words: &mut Words,
)
    requires { IsOf area.now pass.old }
    ensures { IsOf area.now pass.new }
{
    match ask {
        Ask::Call(command) => {
            let reply = area.call(rt, words.alloc, pass, &caller.user, MOMENT, command);
            put_reply(words, &reply);
        }
        Ask::Look(question) => put_answer(words, &area.look(pass, &caller.user, question)),
        Ask::Count => put_count(words, area.unread_count(pass, &caller.user)),
    }
}

// What is answered to a backup onto this disk, and how it opens.
fn put_backed<D: Disk, R: Wait>(
    rt: &R,
    area: &SharedArea<D>,
    pass: &mut Pass,
    mut onto: MemDisk,
    words: &mut Words,
)
    requires { IsOf area.now pass.old }
    ensures { IsOf area.now pass.new }
{
    let backed = area.backup(rt, words.alloc, pass, &mut onto);
    put_backup(&Backup { onto, backed }, words);
}

// The place of this node among so many passes.
fn place_of(node: u32, count: usize) -> Result<usize, RowError>
    ensures { IfOk result (λ place. place < count) }
{
    match (node as usize).checked_sub(1) {
        Some(place) if place < count => Ok(place),
        _ => Err(RowError::Unknown(1)),
    }
}

impl<D: Disk + Drop> Shared<D> {
    /// Shares an area at rest among so many nodes.
    pub(crate) fn new<R: Wait>(
        rt: &R,
        alloc: Global,
        area: OpenArea<D>,
        nodes: u32,
    ) -> Result<Shared<D>, RowError>
        requires rest { HasRest D.device area }
        requires nodes { (0 < nodes) × (nodes ≤ MOST_NODES + 1) }
    {
        match SharedArea::new(rt, alloc, area, nodes) {
            Ok((area, passes)) => Ok(Shared { area, passes }),
            Err(area) => {
                let _disk = area.close();
                Err(RowError::OutOfMemory)
            }
        }
    }

    /// What the node of this row is answered, in words.
    pub(crate) fn ask<R: Wait>(
        &mut self,
        rt: &R,
        row: &Row,
        caller: &Caller,
        ask: &Ask,
        words: &mut Words,
    ) {
        let node = row.u32(1, words);
        match place_of(node, self.passes.len()) {
            Ok(place) => {
                let pass = &mut self.passes[place];
                put_told(rt, &self.area, pass, caller, ask, words);
            }
            Err(error) => words.refuse(error),
        }
    }

    /// The node of this row backs the area up onto this disk. What is answered, and how the disk opens.
    pub(crate) fn back_up<R: Wait>(&mut self, rt: &R, row: &Row, onto: MemDisk, words: &mut Words) {
        let node = row.u32(1, words);
        match place_of(node, self.passes.len()) {
            Ok(place) => put_backed(rt, &self.area, &mut self.passes[place], onto, words),
            Err(error) => words.refuse(error),
        }
    }

    /// Each node follows the plan in a thread of its own.
    pub(crate) fn follow<R: Threads + Wait + Sync>(
        &mut self,
        rt: &R,
        alloc: Global,
        log: &Mutex<Vec<Noted>>,
        plan: Plan,
    )
    where
        D: Send + Sync,
    {
        follow_all(rt, alloc, &self.area, self.passes.as_mut_slice(), log, plan);
    }

    /// Closes the area with the passes of the nodes below this one. Where that is refused, all passes are kept, but for want of memory,
    /// for which no error is told.
    pub(crate) fn close<R: Wait>(
        self,
        rt: &R,
        below: u32,
    ) -> Result<OpenArea<D>, (Shared<D>, Option<CloseError>)> {
        let Shared { area, mut passes } = self;
        let place = (below as usize).saturating_sub(1).min(passes.len());
        let Ok(mut kept) = passes.split_off(place) else {
            return Err((Shared { area, passes }, None));
        };
        match area.close(rt, passes) {
            Ok(area) => Ok(area),
            Err((area, mut passes, error)) => {
                let refusal = passes.append(&mut kept).ok().map(|()| error);
                Err((Shared { area, passes }, refusal))
            }
        }
    }

    /// Ends the sharing: the disk of the area. An area of which a pass was lost, for want of memory, can be closed no more: it is held
    /// for ever.
    pub(crate) fn end<R: Wait>(self, rt: &R) -> D {
        let Shared { area, passes } = self;
        match area.close(rt, passes) {
            Ok(area) => area.close(),
            Err(_kept) => {
                for _ in rt.forever() {}
                unreachable!()
            }
        }
    }
}
