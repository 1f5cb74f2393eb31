//! Tries what no contract says and no script shows, by rows of words: journals that a crash leaves torn, openings, calls of an area in
//! two parts; hosts in memory and all that they hand out; the shared area, by nodes in one thread and in threads of their own, what they
//! were answered replayed on the plain, slow program; seats that add to a number behind a turn; and pages that are sent and taken in threads.
#![tactic(auto)]

mod agenda;
mod backing;
mod following;
mod nodes;
mod noted;
mod replay;
mod rows;
mod shared;
mod showing;
mod values;
mod witness;

use crate::rows::Trial;
use std::alloc::Global;
use std::io;
use std::sync::Wait;
use std::thread::Threads;
use trial_rows::{Row, Words, is_heading};

// Writes what the line comes to, and a line that is none as it stands.
fn print<R: Threads + Wait + Sync + Print>(
    rt: &R,
    alloc: Global,
    trial: &mut Trial<R>,
    line: &str,
) -> io::Result<()> {
    let mut words = Words::new(alloc);
    if is_heading(line) {
        words.put(line);
    } else {
        let row = Row::of(line, &mut words);
        trial.answer(&row, &mut words);
    }
    words.print(rt, line)
}

// The rows of trial_rows, in a loop of its own: what answers them here starts threads and waits for them.
fn run<R: Threads + Wait + Sync + Input + Print>(
    rt: &R,
    alloc: Global,
    trial: &mut Trial<R>,
) -> io::Result<()> {
    for line in rt.lines(alloc) {
        print(rt, alloc, trial, line?.as_str())?;
    }
    Ok(())
}

fn main(rt: HostRuntime) -> io::Result<()> {
    let mut trial = Trial::new(&rt, rt.alloc());
    let ran = run(&rt, rt.alloc(), &mut trial);
    trial.end();
    ran
}
