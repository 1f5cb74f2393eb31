//! Workers that are done: their doors and the bell go back to the host, their passes to the areas, and their pagers to the others.
ghost use Rattle.std.specs.Prelude.{◌≡◌, ◌≤◌, ◌⊎◌, [], All, IfNone, IfSome, length, map, vec_capacity};
ghost use Rattle.jb_server.specs.declared.worker.Worker.TheVariants.{News as is_news, Node as is_node};
ghost use Rattle.jb_run.specs.All.{any};
ghost use Rattle.jb_run.specs.Rows.{lists_of};
ghost use Rattle.jb_run.specs.Lines.{PutsDoors};
ghost use Rattle.jb_run.specs.Workers.{EndsWithPacker, HasDoor, HaveOwn, PartsLast, PartsPacker, gates_of, numbers_of, tallies_of, with_pagers, with_passes};

use crate::node_pages::put_back;
use jb_host::Host;
use jb_page::Pager;
use jb_server::{NodeSlot, PackSlot, Worker};
use jb_shared::Pass;

/// What one with a door works with.
fn slot_of<R: Drop, B: Drop, C: Drop, E: Drop>(worker: Worker<R, B, C, E>) -> NodeSlot<R, C>
    requires { HasDoor worker }
    ensures { (worker ≡ is_node result) ⊎ (worker ≡ is_news result) }
{
    match worker {
        Worker::Node(slot) => slot,
        Worker::News(slot) => slot,
        Worker::Packer(_) => unreachable!(),
    }
}

/// Takes the last of the workers with doors apart, where there is one. Says whether its door has failed.
fn part_last<H: Host>(
    host: &mut H,
    nodes: &mut Vec<Vec<Pass>>,
    pagers: &mut Vec<Pager>,
    workers: &mut Vec<Worker<H::Door, H::Bell, H::Clock, H::Disk>>,
) -> Option<bool>
    requires doors { All HasDoor workers.old.items }
    requires own { HaveOwn (length nodes.old.items) workers.old.items }
    requires room { length (with_pagers workers.old.items pagers.old.items) ≤ vec_capacity pagers.old }
    ensures some { IfSome result (λ failed.
        PartsLast H.Door.gate workers.old.items workers.new.items (H.desk host.old)
        (H.desk host.new) failed) }
    ensures none { IfNone result ((workers.old.items ≡ []) × (H.desk host.new ≡ H.desk host.old)
        × (nodes.new ≡ nodes.old) × (pagers.new ≡ pagers.old)) }

    // The workers that are left have their passes and pagers, and the others are back.
    ensures rows { with_passes workers.new.items (lists_of nodes.new.items)
        ≡ with_passes workers.old.items (lists_of nodes.old.items) }
    ensures lists { length nodes.new.items ≡ length nodes.old.items }
    ensures pagers { with_pagers workers.new.items pagers.new.items ≡ with_pagers workers.old.items pagers.old.items }
    ensures pager_room { vec_capacity pagers.new ≡ vec_capacity pagers.old }
{
    let worker = workers.pop()?;
    let NodeSlot {
        node,
        door,
        passes,
        pager,
        tally,
        ..
    } = slot_of(worker);
    host.put_door(node, door);
    nodes[node as usize - 1] = passes;
    put_back(pagers, pager);
    Some(tally.door_failed)
}

/// Takes workers with doors apart. Says whether a door has failed.
pub(crate) fn part_lines<H: Host>(
    host: &mut H,
    nodes: &mut Vec<Vec<Pass>>,
    pagers: &mut Vec<Pager>,
    mut workers: Vec<Worker<H::Door, H::Bell, H::Clock, H::Disk>>,
) -> bool
    requires doors { All HasDoor workers.items }
    requires own { HaveOwn (length nodes.old.items) workers.items }
    requires room { length (with_pagers workers.items pagers.old.items) ≤ vec_capacity pagers.old }
    ensures doors { PutsDoors (numbers_of workers.items) (gates_of H.Door.gate workers.items)
        (H.desk host.old) (H.desk host.new) }
    ensures failed { result ≡ any (map (λ tally. tally.door_failed) (tallies_of workers.items)) }
    ensures rows { lists_of nodes.new.items ≡ with_passes workers.items (lists_of nodes.old.items) }
    ensures pagers { pagers.new.items ≡ with_pagers workers.items pagers.old.items }
{
    let mut has_failed = false;
    while let Some(failed) = part_last(host, nodes, pagers, &mut workers) {
        has_failed |= failed;
    }
    has_failed
}

/// Takes the packer apart, which is the last of the workers. Its targets are left.
pub(crate) fn part_packer<H: Host>(
    host: &mut H,
    nodes: &mut Vec<Vec<Pass>>,
    workers: &mut Vec<Worker<H::Door, H::Bell, H::Clock, H::Disk>>,
) -> Vec<Option<H::Disk>>
    requires last { EndsWithPacker workers.old.items }
    requires own { HaveOwn (length nodes.old.items) workers.old.items }
    ensures bell { PartsPacker H.Bell.rings workers.old.items workers.new.items result.items
        (H.desk host.old) (H.desk host.new) }
    ensures rows { with_passes workers.new.items (lists_of nodes.new.items)
        ≡ with_passes workers.old.items (lists_of nodes.old.items) }
    ensures lists { length nodes.new.items ≡ length nodes.old.items }
{
    let Some(Worker::Packer(slot)) = workers.pop() else {
        unreachable!()
    };
    let PackSlot {
        node,
        bell,
        passes,
        targets,
        ..
    } = slot;
    host.put_bell(bell);
    nodes[node as usize - 1] = passes;
    targets
}
