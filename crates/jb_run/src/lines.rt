//! The workers of a run: room for them, and each line as the host hands its door out.
ghost use Rattle.std.specs.Prelude.{◌≡◌, ◌+◌, ◌-◌, ◌<◌, ◌≤◌, ℕ, Option, None, [], IfErr, IfOk, OnOk, length, reverse, set, slice_index_or, vec_capacity};
ghost use Rattle.jb_run.specs.Rows.{lists_of};
ghost use Rattle.jb_limits.specs.declared.limits.TheConstants.{MOST_NODES};
ghost use Rattle.jb_host.specs.Desk.{Desk, RefusesCall, asked_door};
ghost use Rattle.jb_page.specs.Pagers.{AreNewPagers};
ghost use Rattle.jb_run.specs.Lines.{first_lines, lines_for};
ghost use Rattle.jb_run.specs.NodePages.{ArePagersOf};
ghost use Rattle.jb_run.specs.Workers.{HasWorkers, OpensLine, OpensLines, StopsAt, packer, pagers_of, with_pagers, with_passes};

use crate::node_pages::{NodePages, node_pages_for};
use crate::targets::{TargetDisks, target_room};
use jb_base::{Name, OutOfMemory, User};
use jb_conf::Board;
use jb_host::{Host, HostError};
use jb_page::Pager;
use jb_server::{NodeSlot, Tally, Worker};
use jb_shared::Pass;
use std::alloc::Global;
use std::mem;

/// The name of the user as whom areas are packed.
const PACKER: &[u8] = b"Packer";
/// The level of that user.
const PACKER_LEVEL: u8 = 255;

/// What has to be there before the areas are opened: room for the workers, the user as whom areas are packed, the pages, and room for
/// the targets of backups.
#[derive(Drop)]
pub(crate) struct Room<R, B, C, E> {
    pub workers: Vec<Worker<R, B, C, E>>,
    pub packer: User,
    pub node_pages: NodePages,
    pub targets: TargetDisks<E>,
}

/// How many workers a board has, each with a pass of each area: its nodes, the packer, and where it has a port for news one more.
pub(crate) fn workers_of(board: &Board) -> u32
    ensures count { (most : Option ℕ) → result ≡ length (lines_for board.now most) + 1 }
    ensures few { result ≤ MOST_NODES + 1 }
{
    match board.news_port {
        Some(_) => board.nodes + 2,
        None => board.nodes + 1,
    }
}

/// Room for so many workers, for the pages between so many nodes, and for so many targets.
pub(crate) fn room_for<R: Drop, B: Drop, C: Drop, E: Drop>(
    alloc: Global,
    workers: u32,
    nodes: u32,
    targets: usize,
) -> Result<Room<R, B, C, E>, OutOfMemory>
    requires workers { workers ≤ MOST_NODES + 1 }
    requires nodes { (0 < nodes) × (nodes ≤ MOST_NODES) }
    ensures none { IfOk result (λ room. room.workers.items ≡ []) }
    ensures room { IfOk result (λ room. workers ≤ vec_capacity room.workers) }
    ensures packer { IfOk result (λ room. room.packer ≡ packer) }
    ensures pagers { IfOk result (λ room. AreNewPagers nodes (reverse room.node_pages.pagers.items)) }
    ensures of { IfOk result (λ room. ArePagersOf room.node_pages.pages (reverse room.node_pages.pagers.items)) }
    ensures untargeted { IfOk result (λ room. (room.targets.disks.items ≡ []) × (room.targets.backups.items ≡ [])) }
    ensures target_room { IfOk result (λ room.
        (targets ≤ vec_capacity room.targets.disks) × (targets ≤ vec_capacity room.targets.backups)) }
{
    let workers = Vec::with_capacity(alloc, workers as usize)?;
    let name = Name::copy(alloc, PACKER)?;
    let packer = User {
        name,
        id: 0,
        level: PACKER_LEVEL,
    };
    let node_pages = node_pages_for(alloc, nodes)?;
    let targets = target_room(alloc, targets)?;
    Ok(Room {
        workers,
        packer,
        node_pages,
        targets,
    })
}

/// Takes the passes at this place, where none are left.
pub(crate) fn take_passes(alloc: Global, nodes: &mut Vec<Vec<Pass>>, place: usize) -> Vec<Pass>
    requires { place < length nodes.old.items }
    ensures taken { result.items ≡ slice_index_or (lists_of nodes.old.items) place [] }
    ensures left { lists_of nodes.new.items ≡ set (lists_of nodes.old.items) place [] }
{
    mem::replace(&mut nodes[place], Vec::new(alloc))
}

/// Opens a line: the door for these passes is handed out, and they are taken. It has no pager yet.
fn open_line<H: Host>(
    alloc: Global,
    host: &mut H,
    node: u32,
    port: u16,
    calls: Option<u32>,
    nodes: &mut Vec<Vec<Pass>>,
) -> Result<NodeSlot<H::Door, H::Clock>, HostError>
    requires some { 0 < node }
    requires within { node ≤ length nodes.old.items }
    ensures ok { IfOk result (λ slot.
        OpensLine H.Door.gate H.Clock.readings H.door_for calls node port slot (H.desk host.old) (H.desk host.new)) }
    ensures taken { IfOk result (λ slot. slot.passes.items ≡ slice_index_or (lists_of nodes.old.items) (node - 1) []) }
    ensures left { OnOk result (lists_of nodes.new.items ≡ set (lists_of nodes.old.items) (node - 1) []) }
    ensures pager { IfOk result (λ slot. slot.pager ≡ None) }
    ensures err { IfErr result (λ error. (nodes.new ≡ nodes.old)
        × RefusesCall (asked_door node port calls) error (H.desk host.old) (H.desk host.new)) }
    ensures lists { length nodes.new.items ≡ length nodes.old.items }
{
    let door = host.door(node, port, calls)?;
    let clock = host.clock();
    let passes = take_passes(alloc, nodes, node as usize - 1);
    Ok(NodeSlot {
        node,
        door,
        clock,
        passes,
        pager: None,
        tally: Tally::new(),
    })
}

/// Opens the lines of all nodes, in order. Each takes the last of the pagers, which is its own.
fn open_nodes<H: Host>(
    alloc: Global,
    host: &mut H,
    board: &Board,
    calls: Option<u32>,
    nodes: &mut Vec<Vec<Pass>>,
    pagers: &mut Vec<Pager>,
    workers: &mut Vec<Worker<H::Door, H::Bell, H::Clock, H::Disk>>,
) -> Result<(), HostError>
    requires none { workers.old.items ≡ [] }
    requires lists { length (lines_for board.now calls) < length nodes.old.items }
    requires room { length (lines_for board.now calls) < vec_capacity workers.old }
    requires pagers { AreNewPagers board.now.nodes (reverse pagers.old.items) }
    ensures ok { OnOk result (HasWorkers H.Door.gate H.Clock.readings H.door_for calls
        (first_lines board.now calls board.now.nodes) workers.new.items (H.desk host.old) (H.desk host.new)) }
    ensures err { IfErr result (λ error. StopsAt H.Door.gate board.now calls workers.new.items error
        (H.desk host.old) (H.desk host.new)) }

    // The workers that were made have their passes, and those of nodes the pagers.
    ensures rows { with_passes workers.new.items (lists_of nodes.new.items) ≡ lists_of nodes.old.items }
    ensures pagers { with_pagers workers.new.items pagers.new.items ≡ pagers.old.items }
    ensures given { OnOk result (pagers.new.items ≡ []) }
    ensures pager_room { vec_capacity pagers.new ≡ vec_capacity pagers.old }
    ensures lists { length nodes.new.items ≡ length nodes.old.items }
    ensures room { vec_capacity workers.new ≡ vec_capacity workers.old }
{
    while workers.len() < board.nodes as usize {
        let node = workers.len() as u32 + 1;
        let mut slot = open_line(alloc, host, node, board.port, calls, nodes)?;
        slot.pager = pagers.pop();
        workers.push_reserved(Worker::Node(slot));
    }
    Ok(())
}

/// Opens the line of news, where the board has one, behind those of all nodes.
fn open_news<H: Host>(
    alloc: Global,
    host: &mut H,
    board: &Board,
    calls: Option<u32>,
    nodes: &mut Vec<Vec<Pass>>,
    workers: &mut Vec<Worker<H::Door, H::Bell, H::Clock, H::Disk>>,
) -> Result<(), HostError>
    requires count { length workers.old.items ≡ board.now.nodes }
    requires lists { length (lines_for board.now calls) < length nodes.old.items }
    requires room { length (lines_for board.now calls) < vec_capacity workers.old }
    ensures ok { OnOk result ((old : Desk)
        → HasWorkers H.Door.gate H.Clock.readings H.door_for calls (first_lines board.now calls board.now.nodes) workers.old.items old (H.desk host.old)
        → HasWorkers H.Door.gate H.Clock.readings H.door_for calls (lines_for board.now calls) workers.new.items old (H.desk host.new)) }
    ensures err { IfErr result (λ error. (old : Desk)
        → HasWorkers H.Door.gate H.Clock.readings H.door_for calls (first_lines board.now calls board.now.nodes) workers.old.items old (H.desk host.old)
        → StopsAt H.Door.gate board.now calls workers.new.items error old (H.desk host.new)) }

    // The workers that were made have their passes.
    ensures rows { with_passes workers.new.items (lists_of nodes.new.items)
        ≡ with_passes workers.old.items (lists_of nodes.old.items) }
    ensures pagers { pagers_of workers.new.items ≡ pagers_of workers.old.items }
    ensures lists { length nodes.new.items ≡ length nodes.old.items }
    ensures room { vec_capacity workers.new ≡ vec_capacity workers.old }
{
    let Some(port) = board.news_port else {
        return Ok(());
    };
    let slot = open_line(alloc, host, board.nodes + 2, port, calls, nodes)?;
    workers.push_reserved(Worker::News(slot));
    Ok(())
}

/// Opens all lines, in order, and hands out the bell.
pub(crate) fn open_lines<H: Host>(
    alloc: Global,
    host: &mut H,
    board: &Board,
    calls: Option<u32>,
    nodes: &mut Vec<Vec<Pass>>,
    pagers: &mut Vec<Pager>,
    workers: &mut Vec<Worker<H::Door, H::Bell, H::Clock, H::Disk>>,
) -> Result<H::Bell, HostError>
    requires none { workers.old.items ≡ [] }
    requires lists { length (lines_for board.now calls) < length nodes.old.items }
    requires room { length (lines_for board.now calls) < vec_capacity workers.old }
    requires pagers { AreNewPagers board.now.nodes (reverse pagers.old.items) }
    ensures ok { IfOk result (λ bell. OpensLines H.Door.gate H.Clock.readings H.door_for calls board.now
        H.bell_over (H.Bell.rings bell) workers.new.items (H.desk host.old) (H.desk host.new)) }
    ensures err { IfErr result (λ error. StopsAt H.Door.gate board.now calls workers.new.items error
        (H.desk host.old) (H.desk host.new)) }

    // The workers that were made have their passes, and those of nodes the pagers.
    ensures rows { with_passes workers.new.items (lists_of nodes.new.items) ≡ lists_of nodes.old.items }
    ensures pagers { with_pagers workers.new.items pagers.new.items ≡ pagers.old.items }
    ensures given { OnOk result (pagers.new.items ≡ []) }
    ensures pager_room { vec_capacity pagers.new ≡ vec_capacity pagers.old }
    ensures lists { length nodes.new.items ≡ length nodes.old.items }
    ensures room { vec_capacity workers.new ≡ vec_capacity workers.old }
{
    open_nodes(alloc, host, board, calls, nodes, pagers, workers)?;
    open_news(alloc, host, board, calls, nodes, workers)?;
    let areas = board.areas.as_slice().len() as u32;
    host.bell(areas, board.pack_minutes, calls)
}
