//! All areas are opened and shared, one after another.
ghost use Rattle.std.specs.Prelude.{◌≡◌, ◌+◌, ◌<◌, ◌≤◌, IfErr, IfOk, List, OnOk, [], length, slice_index_or, take};
ghost use Rattle.jb_limits.specs.declared.limits.TheConstants.{MOST_NODES};
ghost use Rattle.jb_conf.specs.declared.board.BoardArea.{BoardArea};
ghost use Rattle.jb_host.specs.Desk.{Desk};
ghost use Rattle.jb_run.specs.All.{AreOpenable, AreShared, HasAreaRoom, OpensAll, RefusesAll, StopsAt};
ghost use Rattle.jb_run.specs.AreasErrors.{RefusesArea};

use crate::areas_error::AreasError;
use crate::closing::abandon_areas;
use crate::dealing::{deal, roomy_lists};
use crate::sharing::{Shared, share};
use jb_base::OutOfMemory;
use jb_conf::BoardArea;
use jb_disk::Disk;
use jb_host::Host;
use jb_shared::{Pass, SharedArea};
use std::alloc::Global;
use std::sync::Wait;

/// Areas that are shared among several nodes, in order, and the passes of each node. It is not `Drop`: end it by `close_areas` or
/// `abandon_areas`.
pub(crate) struct SharedAreas<D: Disk> {
    pub areas: Vec<SharedArea<D>>,
    /// For each worker, from 1 on, its passes: one of each area, in order.
    pub nodes: Vec<Vec<Pass>>,
    /// For each area how many of its messages were live as it was opened.
    pub live: Vec<usize>,
    /// For each area room for its passes, so that it can be closed without memory.
    pub rooms: Vec<Vec<Pass>>,
}

/// Room for so many areas and their passes for so many nodes.
fn with_room<D: Disk>(
    alloc: Global,
    count: usize,
    nodes: u32,
) -> Result<SharedAreas<D>, OutOfMemory>
    ensures room { IfOk result (λ shared. HasAreaRoom shared count) }
    ensures none { IfOk result (λ shared. AreShared shared nodes 0) }
    ensures uncounted { IfOk result (λ shared. shared.live.items ≡ []) }
{
    let nodes = roomy_lists(alloc, nodes as usize, count)?;
    let live = Vec::with_capacity(alloc, count)?;
    let rooms = Vec::with_capacity(alloc, count)?;
    let areas = Vec::with_capacity(alloc, count)?;
    Ok(SharedAreas {
        areas,
        nodes,
        live,
        rooms,
    })
}

/// Opens and shares the next area.
fn open_next<R: Wait, H: Host>(
    rt: &R,
    alloc: Global,
    host: &mut H,
    areas: &[BoardArea],
    shared: &mut SharedAreas<H::Disk>,
    nodes: u32,
) -> Result<(), AreasError>
    requires areas { AreOpenable areas.now }
    requires nodes { (0 < nodes) × (nodes ≤ MOST_NODES + 1) }
    requires next { length shared.old.areas.items < length areas.now }
    requires whole { AreShared shared.old nodes (length shared.old.areas.items) }
    requires counted { length shared.old.live.items ≡ length shared.old.areas.items }
    requires room { HasAreaRoom shared.old (length areas.now) }
    ensures room { HasAreaRoom shared.new (length areas.now) }
    ensures count { OnOk result (length shared.new.areas.items ≡ length shared.old.areas.items + 1) }
    ensures ok { OnOk result ((old : Desk) → OpensAll
        (take (length shared.old.areas.items) areas.now) nodes old (H.desk host.old) shared.old
        → OpensAll (take (length shared.new.areas.items) areas.now) nodes old (H.desk host.new) shared.new) }
    ensures err { IfErr result (λ error. (shared.new ≡ shared.old)
        × ((area : BoardArea) → RefusesArea (length shared.old.areas.items + 1)
        (slice_index_or areas.now (length shared.old.areas.items) area) (H.desk host.old)
        (H.desk host.new) error)) }
{
    let k = shared.areas.len();
    let opened = share(rt, alloc, host, &areas[k], k as u32 + 1, nodes)?;
    let Shared {
        area,
        mut passes,
        live,
    } = opened;
    deal(&mut shared.nodes, &mut passes);
    shared.areas.push_reserved(area);
    shared.rooms.push_reserved(passes);
    shared.live.push_reserved(live);
    Ok(())
}

/// Opens and shares the areas that are left.
fn open_rest<R: Wait, H: Host>(
    rt: &R,
    alloc: Global,
    host: &mut H,
    areas: &[BoardArea],
    shared: &mut SharedAreas<H::Disk>,
    nodes: u32,
) -> Result<(), AreasError>
    requires areas { AreOpenable areas.now }
    requires nodes { (0 < nodes) × (nodes ≤ MOST_NODES + 1) }
    requires none { AreShared shared.old nodes 0 }
    requires uncounted { shared.old.live.items ≡ [] }
    requires room { HasAreaRoom shared.old (length areas.now) }
    ensures ok { OnOk result (OpensAll areas.now nodes (H.desk host.old) (H.desk host.new) shared.new) }
    ensures err { IfErr result (StopsAt areas.now nodes (H.desk host.old) (H.desk host.new) shared.new) }
{
    while shared.areas.len() < areas.len() {
        open_next(rt, alloc, host, areas, shared, nodes)?;
    }
    Ok(())
}

/// Opens the areas of a board and shares each among so many nodes, from 1 to 33, in order. Each change that a journal holds is done
/// as its area is opened. At the first area that is refused those before it are closed, and the disks are back.
pub(crate) fn open_areas<R: Wait, H: Host>(
    rt: &R,
    alloc: Global,
    host: &mut H,
    areas: &[BoardArea],
    nodes: u32,
) -> Result<SharedAreas<H::Disk>, AreasError>
    requires areas { AreOpenable areas.now }
    requires nodes { (0 < nodes) × (nodes ≤ MOST_NODES + 1) }
    ensures ok { IfOk result (OpensAll areas.now nodes (H.desk host.old) (H.desk host.new)) }
    ensures err { IfErr result (RefusesAll areas.now (H.desk host.old) (H.desk host.new)) }
{
    let mut shared = with_room(alloc, areas.len(), nodes)?;
    match open_rest(rt, alloc, host, areas, &mut shared, nodes) {
        Ok(()) => Ok(shared),
        Err(error) => {
            abandon_areas(rt, host, areas, shared);
            Err(error)
        }
    }
}
