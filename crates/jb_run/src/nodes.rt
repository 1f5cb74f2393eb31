//! The run of many nodes.
ghost use Rattle.std.specs.Prelude.{◌≡◌, ◌+◌, ◌<◌, ◌≤◌, ◌++◌, ◌∷◌, ℕ, Option, List, [], All, IfErr, IfOk, IsSome, None, length, map, reverse, vec_capacity, vec_len};
ghost use Rattle.std.specs.List.{AllZip};
ghost use Rattle.jb_server.specs.declared.worker.Worker.TheVariants.{Packer as is_packer};
ghost use Rattle.jb_run.specs.All.{AreShared};
ghost use Rattle.jb_run.specs.Rows.{lists_of};
ghost use Rattle.jb_host.specs.Desk.{Desk};
ghost use Rattle.jb_page.specs.Pagers.{AreNewPagers};
ghost use Rattle.jb_run.specs.Begins.{HasBoard};
ghost use Rattle.jb_run.specs.Lines.{lines_for};
ghost use Rattle.jb_disk.specs.Device.{Device};
ghost use Rattle.jb_run.specs.Backed.{ShowTargets, Targets};
ghost use Rattle.jb_run.specs.Desks.{HandsOut};
ghost use Rattle.jb_run.specs.Nodes.{RunsNodes, lent_path};
ghost use Rattle.jb_run.specs.Targets.{HaveAllTargets, targets_for};
ghost use Rattle.jb_run.specs.NodePages.{ArePagersOf};
ghost use Rattle.jb_run.specs.Workers.{HasLine, IsFresh, PackerIsReady, gates_of, packer, pagers_of, with_passes};
ghost use Rattle.jb_run.specs.Working.{AreAllOf, GivesUp, RunsOn, WorkToTheEnd};

use crate::closing::{abandon_areas, close_areas};
use crate::error::RunError;
use crate::lines::{Room, open_lines, room_for, take_passes, workers_of};
use crate::node_pages::{NodePages, close_pages};
use crate::nodes_end::NodesEnd;
use crate::opening::{SharedAreas, open_areas};
use crate::parting::{part_lines, part_packer};
use crate::targets::{TargetDisks, board_for, close_targets, count_targets, open_targets};
use crate::telling::{news_port_of, port_of, tell_open};
use jb_conf::Board;
use jb_host::{Door, Host, HostError};
use jb_server::{PackSlot, Worker, backups_are_of_rings, serve};
use std::alloc::Global;
use std::sync::Wait;
use std::thread::Threads;

/// Those who serve the lines, ready, the packer, and the pages.
struct Crew<R, B, C, E> {
    lines: Vec<Worker<R, B, C, E>>,
    packer: PackSlot<B, C, E>,
    node_pages: NodePages,
}

/// All work at once until each is done, and are taken apart, and the pages are closed. Says whether a door has failed, and leaves the
/// targets of the packer.
fn work<T: Threads + Wait + Sync, H: Host>(
    rt: &T,
    alloc: Global,
    host: &mut H,
    board: &Board,
    calls: Option<u32>,
    shared: &mut SharedAreas<H::Disk>,
    crew: Crew<H::Door, H::Bell, H::Clock, H::Disk>,
) -> (bool, Vec<Option<H::Disk>>)
where
    H::Disk: Send + Sync,
    H::Door: Send,
    <H::Door as Door>::Link: Send,
    H::Bell: Send,
    H::Clock: Send,
    requires areas { length shared.old.areas.items ≡ length board.now.areas }
    requires lines { AllZip HasLine (lines_for board.now calls) crew.lines.items }
    requires lists { length shared.old.nodes.items ≡ length (lines_for board.now calls) + 1 }
    requires room { vec_len crew.lines < vec_capacity crew.lines }
    requires ready { All (IsFresh H.Clock.readings (H.desk host.old).readings) crew.lines.items }
    requires packer { PackerIsReady H.Clock.readings (H.desk host.old).readings board.now crew.packer }
    requires ours { AreAllOf shared.old.areas.items
        (with_passes (crew.lines.items ++ is_packer crew.packer ∷ []) (lists_of shared.old.nodes.items)) }

    // Each node has its pager.
    requires given { crew.node_pages.pagers.items ≡ [] }
    requires pagers { AreNewPagers board.now.nodes (pagers_of crew.lines.items) }
    requires of { ArePagersOf crew.node_pages.pages (pagers_of crew.lines.items) }
    requires pager_room { board.now.nodes ≤ vec_capacity crew.node_pages.pagers }
    ensures worked { (targets : Targets) × ShowTargets H.Disk.device crew.packer.targets.items targets.first
        × ShowTargets H.Disk.device result.1.items targets.left
        × WorkToTheEnd (H.desk host.old).readings board.now (lines_for board.now calls)
        (gates_of H.Door.gate crew.lines.items) (H.Bell.rings crew.packer.bell)
        (with_passes (crew.lines.items ++ is_packer crew.packer ∷ []) (lists_of shared.old.nodes.items))
        (lists_of shared.new.nodes.items) targets (H.desk host.old) (H.desk host.new) result.0 }
    ensures there { All IsSome result.1.items }

    // The areas are the same, and the passes are still theirs.
    ensures areas { shared.new ≡ record shared.old { nodes = shared.new.nodes } }
    ensures ours { AreAllOf shared.new.areas.items (lists_of shared.new.nodes.items) }
{
    let Crew {
        lines,
        packer,
        mut node_pages,
    } = crew;
    let mut workers = lines;
    workers.push_reserved(Worker::Packer(packer));
    let areas = shared.areas.as_slice();
    serve(
        rt,
        alloc,
        board,
        areas,
        &node_pages.pages,
        workers.as_mut_slice(),
    );
    let targets = part_packer(host, &mut shared.nodes, &mut workers);
    let door_failed = part_lines(host, &mut shared.nodes, &mut node_pages.pagers, workers);
    close_pages(rt, node_pages);
    (door_failed, targets)
}

/// The run on areas that are open, with these targets; they are closed behind it, and the targets are put back.
fn serve_areas<T: Threads + Wait + Sync, H: Host>(
    rt: &T,
    alloc: Global,
    host: &mut H,
    board: &Board,
    calls: Option<u32>,
    backup: Option<&str>,
    room: Room<H::Door, H::Bell, H::Clock, H::Disk>,
    mut shared: SharedAreas<H::Disk>,
) -> Result<NodesEnd, HostError>
where
    H::Disk: Send + Sync,
    H::Door: Send,
    <H::Door as Door>::Link: Send,
    H::Bell: Send,
    H::Clock: Send,
    requires none { room.workers.items ≡ [] }
    requires room { length (lines_for board.now calls) < vec_capacity room.workers }
    requires packer { room.packer ≡ packer }
    requires pagers { AreNewPagers board.now.nodes (reverse room.node_pages.pagers.items) }
    requires of { ArePagersOf room.node_pages.pages (reverse room.node_pages.pagers.items) }
    requires whole { AreShared shared (length (lines_for board.now calls) + 1) (length board.now.areas) }

    // The targets were handed out.
    requires targeted { HaveAllTargets (lent_path backup) board.now.areas }
    requires there { All IsSome room.targets.disks.items }
    requires count { length room.targets.disks.items ≡ length (targets_for (lent_path backup) board.now.areas) }
    requires untried { room.targets.backups.items ≡ map (λ _. None) room.targets.disks.items }
    ensures ok { IfOk result (λ end. (old : Desk) (devices : List Device)
        → ShowTargets H.Disk.device room.targets.disks.items devices
        → HandsOut (targets_for (lent_path backup.entry) board.now.areas) devices old (H.desk host.old)
        → RunsOn H.door_for H.bell_over board.now calls (lent_path backup.entry) (lists_of shared.nodes.items)
        old (H.desk host.new) end) }
    ensures err { IfErr result (λ error. (old : Desk) (devices : List Device)
        → ShowTargets H.Disk.device room.targets.disks.items devices
        → HandsOut (targets_for (lent_path backup.entry) board.now.areas) devices old (H.desk host.old)
        → GivesUp board.now calls (lent_path backup.entry) (lists_of shared.nodes.items)
        old (H.desk host.new) error) }
{
    let Room {
        mut workers,
        packer,
        mut node_pages,
        targets,
    } = room;
    let TargetDisks { disks, backups } = targets;
    let areas = board.areas.as_slice();
    match open_lines(
        alloc,
        host,
        board,
        calls,
        &mut shared.nodes,
        &mut node_pages.pagers,
        &mut workers,
    ) {
        Ok(bell) => {
            let clock = host.clock();
            let passes = take_passes(alloc, &mut shared.nodes, board.nodes as usize);
            let packer = PackSlot {
                node: board.nodes + 1,
                bell,
                clock,
                passes,
                user: packer,
                packs: 0,
                targets: disks,
                backups,
            };
            let crew = Crew {
                lines: workers,
                packer,
                node_pages,
            };
            let port = port_of(board, &crew.lines);
            let news = news_port_of(board, &crew.lines);
            tell_open(host, board, port, news, shared.live.as_slice());
            let (door_failed, targets) = work(rt, alloc, host, board, calls, &mut shared, crew);
            let is_doubtful = close_areas(rt, host, areas, shared);
            close_targets(host, backup, areas, targets);
            host.note("closed");
            Ok(NodesEnd {
                is_doubtful,
                door_failed,
            })
        }
        Err(error) => {
            part_lines(host, &mut shared.nodes, &mut node_pages.pagers, workers);
            abandon_areas(rt, host, areas, shared);
            close_targets(host, backup, areas, disks);
            Err(error)
        }
    }
}

/// Hands out the targets of areas that are open, and serves these.
fn serve_targeted<T: Threads + Wait + Sync, H: Host>(
    rt: &T,
    alloc: Global,
    host: &mut H,
    board: &Board,
    calls: Option<u32>,
    backup: Option<&str>,
    mut room: Room<H::Door, H::Bell, H::Clock, H::Disk>,
    shared: SharedAreas<H::Disk>,
) -> Result<NodesEnd, HostError>
where
    H::Disk: Send + Sync,
    H::Door: Send,
    <H::Door as Door>::Link: Send,
    H::Bell: Send,
    H::Clock: Send,
    requires none { room.workers.items ≡ [] }
    requires room { length (lines_for board.now calls) < vec_capacity room.workers }
    requires packer { room.packer ≡ packer }
    requires pagers { AreNewPagers board.now.nodes (reverse room.node_pages.pagers.items) }
    requires of { ArePagersOf room.node_pages.pages (reverse room.node_pages.pagers.items) }
    requires whole { AreShared shared (length (lines_for board.now calls) + 1) (length board.now.areas) }
    requires targeted { HaveAllTargets (lent_path backup) board.now.areas }
    requires untargeted { (room.targets.disks.items ≡ []) × (room.targets.backups.items ≡ []) }
    requires target_room { (length (targets_for (lent_path backup) board.now.areas) ≤ vec_capacity room.targets.disks)
        × (length (targets_for (lent_path backup) board.now.areas) ≤ vec_capacity room.targets.backups) }
    ensures ok { IfOk result (RunsOn H.door_for H.bell_over board.now calls (lent_path backup.entry)
        (lists_of shared.nodes.items) (H.desk host.old) (H.desk host.new)) }
    ensures err { IfErr result (GivesUp board.now calls (lent_path backup.entry) (lists_of shared.nodes.items)
        (H.desk host.old) (H.desk host.new)) }
{
    let areas = board.areas.as_slice();
    match open_targets(host, backup, areas, &mut room.targets) {
        Ok(()) => serve_areas(rt, alloc, host, board, calls, backup, room, shared),
        Err(error) => {
            let Room { targets, .. } = room;
            let TargetDisks { disks, .. } = targets;
            abandon_areas(rt, host, areas, shared);
            close_targets(host, backup, areas, disks);
            Err(error)
        }
    }
}

/// A run with many nodes of this board, which was read: room is made first, then the areas are opened and served.
fn serve_board<T: Threads + Wait + Sync, H: Host>(
    rt: &T,
    alloc: Global,
    host: &mut H,
    board: &Board,
    calls: Option<u32>,
    backup: Option<&str>,
) -> Result<NodesEnd, RunError>
where
    H::Disk: Send + Sync,
    H::Door: Send,
    <H::Door as Door>::Link: Send,
    H::Bell: Send,
    H::Clock: Send,
    requires targeted { HaveAllTargets (lent_path backup) board.now.areas }
    ensures { (path : List ℕ) (old : Desk) → HasBoard path board.now old (H.desk host.old)
        → RunsNodes H.door_for H.bell_over path calls (lent_path backup.entry) old (H.desk host.new) result }
{
    let workers = workers_of(board);
    let areas = board.areas.as_slice();
    let targets = count_targets(backup, areas);
    let Ok(room) = room_for(alloc, workers, board.nodes, targets) else {
        return Err(RunError::OutOfMemory);
    };
    let shared = open_areas(rt, alloc, host, areas, workers)?;
    backups_are_of_rings();
    Ok(serve_targeted(rt, alloc, host, board, calls, backup, room, shared)?)
}

/// A run with many nodes of the board that the settings file at this path says: each node serves callers at a door of its own, so many
/// or as many as come; so are readers of news served, where the settings have a port for them; and the areas are packed meanwhile. The
/// operator is told when callers may come, and when all is closed. Everything that the host handed out is back then.
///
/// Where there is a folder for backups, each area is backed up once, behind the packer's first ring for it, onto the disk of that folder under
/// the name of its base. A backup that is refused does not change how the run ends.
pub fn serve_nodes<T: Threads + Wait + Sync, H: Host>(
    rt: &T,
    alloc: Global,
    host: &mut H,
    path: &str,
    calls: Option<u32>,
    backup: Option<&str>,
) -> Result<NodesEnd, RunError>
where
    H::Disk: Send + Sync,
    H::Door: Send,
    <H::Door as Door>::Link: Send,
    H::Bell: Send,
    H::Clock: Send,
    ensures { RunsNodes H.door_for H.bell_over path.now calls (lent_path backup.entry)
        (H.desk host.old) (H.desk host.new) result }
{
    let board = board_for(alloc, host, path, backup)?;
    serve_board(rt, alloc, host, &board, calls, backup)
}
