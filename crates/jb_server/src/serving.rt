//! All workers at the same time.
ghost use Rattle.std.specs.Prelude.{◌≡◌, ◌<◌, All, ℕ, length, slice_index_or};
ghost use Rattle.jb_server.specs.Workers.{HasWorked, IsAtWork};

use crate::node::serve_callers;
use crate::packer::serve_bell;
use crate::service::Service;
use crate::worker::Worker;
use jb_conf::Board;
use jb_disk::Disk;
use jb_host::{Bell, Clock, Door};
use jb_page::Pages;
use jb_shared::SharedArea;
use std::alloc::Global;
use std::sync::Wait;
use std::thread;
use std::thread::Threads;

/// What one worker does, until it is done.
fn work<T: Wait, D: Disk, E: Disk, R: Door, B: Bell, C: Clock>(
    rt: &T,
    alloc: Global,
    board: &Board,
    areas: &[SharedArea<D>],
    pages: &Pages,
    worker: &mut Worker<R, B, C, E>,
)
    requires areas { length areas.now ≡ length board.now.areas }
    requires ours { IsAtWork areas.now pages.now board.now worker.old }
    ensures ours { IsAtWork areas.now pages.now board.now worker.new }
    ensures worked { HasWorked R.gate B.rings C.readings E.device board.now worker.old worker.new }
{
    match worker {
        Worker::Node(slot) => serve_callers(rt, alloc, board, areas, pages, Service::Menus, slot),
        Worker::Packer(slot) => serve_bell(rt, alloc, areas, slot),
        Worker::News(slot) => serve_callers(rt, alloc, board, areas, pages, Service::News, slot),
    }
}

/// All workers at the same time, each in a call of its own, until each is done. It takes a thread for each, and waits for callers,
/// for rings and for the turns of the areas.
pub fn serve<
    T: Threads + Wait + Sync,
    D: Disk + Send + Sync,
    E: Disk + Send,
    R: Door + Send,
    B: Bell + Send,
    C: Clock + Send,
>(
    rt: &T,
    alloc: Global,
    board: &Board,
    areas: &[SharedArea<D>],
    pages: &Pages,
    workers: &mut [Worker<R, B, C, E>],
)
where
    R::Link: Send,
    requires areas { length areas.now ≡ length board.now.areas }
    requires ours { All (IsAtWork areas.now pages.now board.now) workers.old }
    ensures ours { All (IsAtWork areas.now pages.now board.now) workers.new }
    ensures worked { (k : ℕ) (absent : _) → k < length workers.old
        → HasWorked R.gate B.rings C.readings E.device board.now (slice_index_or workers.old k absent)
        (slice_index_or workers.new k absent) }
{
    if workers.is_empty() {
        return;
    }
    let count = workers.len();
    thread::for_each_mut(
        rt,
        workers,
        count,
        &|_, worker| work(rt, alloc, board, areas, pages, worker),
    );
}
