//! Nodes follow a plan, and what is said of it.
ghost use Rattle.jb_area.specs.Calls.{HasRest};

use crate::noted::{Noted, Plan};
use crate::replay::replays;
use crate::shared::Shared;
use crate::witness::verdict;
use jb_area::OpenArea;
use jb_disk::{Disk, MemDisk};
use std::alloc::Global;
use std::sync::{Mutex, Wait};
use std::thread::Threads;
use trial_parts::{area_in, open};
use trial_rows::{Files, Row, RowError, Words};

/// The plan of a row.
pub(crate) fn plan_in(row: &Row, words: &mut Words) -> Plan {
    let first = row.u32(1, words);
    match row.word(0) {
        "lookers" => Plan::Watch(first, row.u32(2, words)),
        word => Plan::Crowd(first, word == "packers"),
    }
}

/// What the nodes noted, in order.
pub(crate) fn in_order(log: Mutex<Vec<Noted>>, words: &mut Words) -> Vec<Noted> {
    let mut noted = log.into_inner();
    let done = noted
        .as_mut_slice()
        .sort_by_key(words.alloc, |one| one.order);
    words.done(done);
    noted
}

// The nodes follow the plan and note what they do. The disk behind it.
fn followed<D: Disk + Drop + Send + Sync, R: Threads + Wait + Sync>(
    rt: &R,
    alloc: Global,
    area: OpenArea<D>,
    log: &Mutex<Vec<Noted>>,
    plan: Plan,
) -> Result<D, RowError>
    requires rest { HasRest D.device area }
{
    match Shared::new(rt, alloc, area, plan.nodes()) {
        Ok(mut shared) => {
            shared.follow(rt, alloc, log, plan);
            Ok(shared.end(rt))
        }
        Err(error) => Err(error),
    }
}

/// The nodes follow the plan of a row on these files, on a disk that fails the calls that stand behind it. The files behind it.
pub(crate) fn followed_in<R: Threads + Wait + Sync>(
    rt: &R,
    base: &Files,
    row: &Row,
    log: &Mutex<Vec<Noted>>,
    plan: Plan,
    words: &mut Words,
) -> Result<Files, RowError> {
    let followed = match area_in(base, row, 3, words) {
        Ok(area) => followed(rt, words.alloc, area, log, plan),
        Err(error) => Err(error),
    };
    match followed {
        Ok(disk) => Ok(Files::of(words.alloc, &disk)?),
        Err(error) => Err(error),
    }
}

// How much was done, and whether the plain program does the same.
fn put_compared(noted: &[Noted], base: &Files, words: &mut Words) -> Result<(), RowError> {
    words.number(noted.len() as u64);
    words.word("done: the plain program answers");
    let is_same = replays(words.alloc, noted, base)?;
    words.word(if is_same { "the same" } else { "otherwise" });
    Ok(())
}

// How the looks of so many nodes stand beside the area of the base.
fn put_watched(
    noted: &[Noted],
    nodes: u32,
    base: &Files,
    words: &mut Words,
) -> Result<(), RowError> {
    match open(words.alloc, base, &[]) {
        Ok(area) => {
            verdict(words, noted, nodes, area.loaded());
            let _disk = area.close();
            Ok(())
        }
        Err(error) => Err(error),
    }
}

/// What is said of the plan, of what the nodes noted and of the base behind it.
pub(crate) fn put_judged(
    plan: Plan,
    noted: &[Noted],
    base: &Files,
    words: &mut Words,
) -> Result<(), RowError> {
    match plan {
        Plan::Watch(..) => put_watched(noted, plan.nodes(), base, words),
        _ => put_compared(noted, base, words),
    }
}
