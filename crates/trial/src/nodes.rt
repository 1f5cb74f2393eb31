//! Nodes that follow a plan, each in a thread of its own.
ghost use Rattle.std.specs.Prelude.{All};
ghost use Rattle.jb_shared.specs.Areas.{IsOf};

use crate::agenda::Agenda;
use crate::noted::{Deed, NODES, Noted, Plan, Told};
use jb_disk::Disk;
use jb_shared::{Pass, SharedArea, SharedError};
use jb_state::{Answer, Question};
use std::alloc::Global;
use std::sync::{Mutex, Wait};
use std::thread;
use std::thread::Threads;
use trial_rows::{Act, Caller, MOMENT, RowError, caller_at, command_by};

// A count and a look at the figures.
fn seen<D: Disk>(area: &SharedArea<D>, pass: &mut Pass, caller: &Caller) -> Result<Told, RowError>
    requires { IsOf area.now pass.old }
    ensures { IsOf area.now pass.new }
{
    let Ok(unread) = area.unread_count(pass, &caller.user) else {
        return Err(RowError::OutOfMemory);
    };
    let answer = area.look(pass, &caller.user, &Question::Figures);
    let Ok(Answer::Figures(figures)) = &answer else {
        return Err(RowError::OutOfMemory);
    };
    Ok(Told::Saw {
        figures: *figures,
        unread,
    })
}

// A call about a number.
fn called<D: Disk, R: Wait>(
    rt: &R,
    alloc: Global,
    area: &SharedArea<D>,
    pass: &mut Pass,
    caller: &Caller,
    act: Act,
    number: u32,
) -> Result<Told, RowError>
    requires { IsOf area.now pass.old }
    ensures { IsOf area.now pass.new }
{
    let Ok(command) = command_by(alloc, &caller.user, act, number) else {
        return Err(RowError::OutOfMemory);
    };
    match area.call(rt, alloc, pass, &caller.user, MOMENT, &command) {
        Ok(reply) => Ok(Told::Replied(reply)),
        Err(SharedError::StoreFault) => Ok(Told::Stopped),
        Err(_) => Err(RowError::OutOfMemory),
    }
}

// What comes of the node's deed.
fn done<D: Disk, R: Wait>(
    rt: &R,
    alloc: Global,
    area: &SharedArea<D>,
    pass: &mut Pass,
    node: u32,
    deed: Deed,
) -> Result<Told, RowError>
    requires { IsOf area.now pass.old }
    ensures { IsOf area.now pass.new }
{
    let Ok(caller) = caller_at(alloc, node) else {
        return Err(RowError::OutOfMemory);
    };
    match deed {
        Deed::Asked(act, number) => called(rt, alloc, area, pass, &caller, act, number),
        Deed::Looked => seen(area, pass, &caller),
    }
}

// Notes what came of the deed, and says whether it could.
fn note(
    log: &mut Vec<Noted>,
    agenda: &mut Agenda,
    deed: Deed,
    told: Result<Told, RowError>,
) -> bool {
    match told {
        Ok(told) => log.push(agenda.noted(deed, told)).is_ok(),
        Err(_) => false,
    }
}

// All that the node at this place among the passes does, and notes. Without memory it stops, and what it would have noted is missing.
fn follow<D: Disk, R: Wait>(
    rt: &R,
    alloc: Global,
    area: &SharedArea<D>,
    pass: &mut Pass,
    log: &Mutex<Vec<Noted>>,
    plan: Plan,
    place: usize,
)
    requires { IsOf area.now pass.old }
    ensures { IsOf area.now pass.new }
{
    let node = u32::try_from(place).unwrap_or(0).saturating_add(1);
    let mut agenda = Agenda::new(plan, node);
    for _ in 0..agenda.deeds() {
        let deed = agenda.next();
        let is_noted = if agenda.is_in_order() {
            let mut log = log.lock(rt);
            let told = done(rt, alloc, area, pass, node, deed);
            note(&mut log, &mut agenda, deed, told)
        } else {
            let told = done(rt, alloc, area, pass, node, deed);
            note(&mut log.lock(rt), &mut agenda, deed, told)
        };
        if !is_noted {
            break;
        }
    }
}

/// Each node follows the plan, in a thread of its own.
pub(crate) fn follow_all<D: Disk + Send + Sync, R: Threads + Wait + Sync>(
    rt: &R,
    alloc: Global,
    area: &SharedArea<D>,
    passes: &mut [Pass],
    log: &Mutex<Vec<Noted>>,
    plan: Plan,
)
    requires { All (IsOf area.now) passes.old }
    ensures { All (IsOf area.now) passes.new }
{
    thread::for_each_mut(
        rt,
        passes,
        NODES as usize,
        &|place: usize, pass: &mut Pass|
            requires { IsOf area.now pass.now }
            ensures { IsOf area.entry.now pass.exit.now }
        {
            follow(rt, alloc, area, pass, log, plan, place);
        },
    );
}
