//! All areas are closed.
ghost use Rattle.std.specs.Prelude.{◌≡◌, ◌≤◌, IfNone, IfSome, List, length, take, vec_len};
ghost use Rattle.jb_disk.specs.Device.{Device};
ghost use Rattle.jb_shared.specs.declared.opening.Opening.{Opening};
ghost use Rattle.jb_run.specs.All.{Abandons, AreOpenable, AreShared, ClosesAll, ClosesLast, OpenAs};
ghost use Rattle.jb_run.specs.Rows.{lists_of};

use crate::dealing::collect;
use crate::opening::SharedAreas;
use crate::sharing::end;
use jb_conf::BoardArea;
use jb_host::Host;
use std::sync::Wait;

/// Closes the last of the areas, where there is one. Says whether it is in doubt.
fn close_last<R: Wait, H: Host>(
    rt: &R,
    host: &mut H,
    areas: &[BoardArea],
    shared: &mut SharedAreas<H::Disk>,
) -> Option<bool>
    requires whole { AreShared shared.old (length shared.old.nodes.items) (length shared.old.areas.items) }
    requires within { length shared.old.areas.items ≤ length areas.now }
    ensures whole { AreShared shared.new (length shared.new.nodes.items) (length shared.new.areas.items) }
    ensures closed { IfSome result (ClosesLast areas.now shared.old shared.new (H.desk host.old)
        (H.desk host.new)) }
    ensures none { IfNone result ((length shared.old.areas.items ≡ 0)
        × (H.desk host.new ≡ H.desk host.old) × (vec_len shared.new.areas ≡ 0)) }
{
    let area = shared.areas.pop()?;
    let Some(mut row) = shared.rooms.pop() else {
        unreachable!()
    };
    collect(&mut shared.nodes, &mut row);
    let place = shared.areas.len();
    Some(end(rt, host, &areas[place], area, row))
}

/// Closes areas that were opened, which are the first of these, and puts their disks back. Says whether one is in doubt. It takes no
/// memory.
pub(crate) fn close_areas<R: Wait, H: Host>(
    rt: &R,
    host: &mut H,
    areas: &[BoardArea],
    mut shared: SharedAreas<H::Disk>,
) -> bool
    requires areas { AreOpenable areas.now }
    requires whole { AreShared shared (length shared.nodes.items) (length shared.areas.items) }
    requires within { length shared.areas.items ≤ length areas.now }
    ensures { ClosesAll (take (length shared.areas.items) areas.now) (lists_of shared.nodes.items)
        (H.desk host.old) (H.desk host.new) result }
{
    let mut is_doubtful = false;
    while let Some(doubtful) = close_last(rt, host, areas, &mut shared) {
        is_doubtful |= doubtful;
    }
    let SharedAreas {
        areas,
        nodes: _,
        live: _,
        rooms: _,
    } = shared;
    areas.destroy_empty();
    is_doubtful
}

/// Closes areas on which nobody has called, which are the first of these: each disk is back, and left at just what its files opened
/// to. It takes no memory.
pub(crate) fn abandon_areas<R: Wait, H: Host>(
    rt: &R,
    host: &mut H,
    areas: &[BoardArea],
    shared: SharedAreas<H::Disk>,
)
    requires areas { AreOpenable areas.now }
    requires whole { AreShared shared (length shared.nodes.items) (length shared.areas.items) }
    requires within { length shared.areas.items ≤ length areas.now }
    ensures { (befores : List Device) (openings : List Opening)
        → OpenAs (take (length shared.areas.items) areas.now) befores openings (lists_of shared.nodes.items)
        → Abandons (take (length shared.areas.items) areas.now) befores (H.desk host.old) (H.desk host.new) }
{
    close_areas(rt, host, areas, shared);
}
