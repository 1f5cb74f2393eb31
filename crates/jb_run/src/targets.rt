//! The disks onto which areas are backed up: which areas have one, and how they are handed out and put back.
ghost use Rattle.std.specs.Prelude.{◌≡◌, ◌≤◌, ◌⊎◌, IfErr, IfNone, IfOk, IfSome, IsSome, List, None, OnOk, [], All, length, map, take, vec_capacity};
ghost use Rattle.jb_disk.specs.Device.{Device};
ghost use Rattle.jb_run.specs.Backed.{PutsLast, ShowTargets};
ghost use Rattle.jb_run.specs.Begins.{HasBoard, HasNoSettings, LacksTarget, RefusesSettings};
ghost use Rattle.jb_run.specs.Desks.{HandsOut, PutsBack};
ghost use Rattle.jb_run.specs.Nodes.{lent_path};
ghost use Rattle.jb_run.specs.Targets.{HaveAllTargets, HaveTargets, IsFirstWithout, StopsTargets, has_base, has_no_target, target_of, targets_for};

use crate::console::board_at;
use crate::error::RunError;
use crate::settings::tell_untargeted;
use jb_backup::BackupError;
use jb_base::OutOfMemory;
use jb_conf::{AreaKey, Board, BoardArea, ConfError, Field};
use jb_host::{Host, HostError};
use jb_shared::Backed;
use std::alloc::Global;

/// The disks onto which areas are backed up, and what came of it, both in the order of the areas.
#[derive(Drop)]
pub(crate) struct TargetDisks<E> {
    pub disks: Vec<Option<E>>,
    pub backups: Vec<Option<Result<Backed, BackupError>>>,
}

/// Whether one of these areas has this base.
fn has_base(base: &str, areas: &[BoardArea]) -> bool
    ensures { result ≡ has_base base.now areas.now }
{
    areas.iter().any(|area| area.base.as_str() == base)
}

/// Whether an area behind these has no target of its own in this folder.
fn has_no_target(dir: &str, before: &[BoardArea], area: &BoardArea) -> bool
    ensures { result ≡ has_no_target dir.now before.now area.now }
{
    has_base(area.base.as_str(), before) || area.dir.as_str() == dir
}

/// The first of these areas that has no target of its own in this folder.
fn first_without_target(dir: &str, areas: &[BoardArea]) -> Option<usize>
    ensures some { IfSome result (IsFirstWithout dir.now areas.now) }
    ensures none { IfNone result (HaveTargets dir.now areas.now (length areas.now)) }
{
    for k in 0..areas.len() {
        if has_no_target(dir, &areas[..k], &areas[k]) {
            return Some(k);
        }
    }
    None
}

/// The board that the settings file at this path says, of which each area has a target where there is a folder for backups. The operator
/// is told what is wrong with it.
pub(crate) fn board_for<H: Host>(
    alloc: Global,
    host: &mut H,
    path: &str,
    backup: Option<&str>,
) -> Result<Board, RunError>
    ensures ok { IfOk result (λ board. HasBoard path.now board (H.desk host.old) (H.desk host.new)) }
    ensures targeted { IfOk result (λ board. HaveAllTargets (lent_path backup.entry) board.areas) }
    ensures err { IfErr result (λ error. HasNoSettings path.now (H.desk host.old) (H.desk host.new) error
        ⊎ (RefusesSettings path.now (H.desk host.old) (H.desk host.new) error
        ⊎ LacksTarget path.now (lent_path backup.entry) (H.desk host.old) (H.desk host.new) error)) }
{
    let board = board_at(alloc, host, path)?;
    let Some(dir) = backup else {
        return Ok(board);
    };
    let Some(place) = first_without_target(dir, board.areas.as_slice()) else {
        return Ok(board);
    };
    let place = place as u32 + 1;
    tell_untargeted(alloc, host, path, place);
    let field = Field::Area(place, AreaKey::Base);
    Err(RunError::Settings(ConfError::Repeated { field }))
}

/// How many targets are asked for: one for each area where there is a folder for backups.
pub(crate) fn count_targets(backup: Option<&str>, areas: &[BoardArea]) -> usize
    ensures { result ≡ length (targets_for (lent_path backup.entry) areas.now) }
{
    match backup {
        Some(_) => areas.len(),
        None => 0,
    }
}

/// Room for so many targets.
pub(crate) fn target_room<E: Drop>(
    alloc: Global,
    count: usize,
) -> Result<TargetDisks<E>, OutOfMemory>
    ensures none { IfOk result (λ room. (room.disks.items ≡ []) × (room.backups.items ≡ [])) }
    ensures room { IfOk result (λ room. (count ≤ vec_capacity room.disks) × (count ≤ vec_capacity room.backups)) }
{
    let disks = Vec::with_capacity(alloc, count)?;
    let backups = Vec::with_capacity(alloc, count)?;
    Ok(TargetDisks { disks, backups })
}

/// Hands out the targets of areas in this folder, in order. No backup onto one was tried yet.
fn hand_targets<H: Host>(
    host: &mut H,
    dir: &str,
    areas: &[BoardArea],
    targets: &mut TargetDisks<H::Disk>,
) -> Result<(), HostError>
    requires none { (targets.old.disks.items ≡ []) × (targets.old.backups.items ≡ []) }
    requires room { (length areas.now ≤ vec_capacity targets.old.disks)
        × (length areas.now ≤ vec_capacity targets.old.backups) }
    ensures untried { targets.new.backups.items ≡ map (λ _. None) targets.new.disks.items }
    ensures ok { OnOk result ((devices : List Device)
        × ShowTargets H.Disk.device targets.new.disks.items devices
        × HandsOut (map (target_of dir.now) areas.now) devices (H.desk host.old) (H.desk host.new)) }
    ensures err { IfErr result (λ error. (devices : List Device)
        × ShowTargets H.Disk.device targets.new.disks.items devices
        × StopsTargets (map (target_of dir.now) areas.now) devices error (H.desk host.old) (H.desk host.new)) }
{
    while targets.disks.len() < areas.len() {
        let disk = host.disk(dir, areas[targets.disks.len()].base.as_str())?;
        targets.disks.push_reserved(Some(disk));
        targets.backups.push_reserved(None);
    }
    Ok(())
}

/// Hands out the target of each area, in order, where there is a folder for backups. No backup onto one was tried yet.
pub(crate) fn open_targets<H: Host>(
    host: &mut H,
    backup: Option<&str>,
    areas: &[BoardArea],
    targets: &mut TargetDisks<H::Disk>,
) -> Result<(), HostError>
    requires none { (targets.old.disks.items ≡ []) × (targets.old.backups.items ≡ []) }
    requires room { (length (targets_for (lent_path backup) areas.now) ≤ vec_capacity targets.old.disks)
        × (length (targets_for (lent_path backup) areas.now) ≤ vec_capacity targets.old.backups) }
    ensures untried { targets.new.backups.items ≡ map (λ _. None) targets.new.disks.items }
    ensures ok { OnOk result ((devices : List Device)
        × ShowTargets H.Disk.device targets.new.disks.items devices
        × HandsOut (targets_for (lent_path backup.entry) areas.now) devices (H.desk host.old) (H.desk host.new)) }
    ensures err { IfErr result (λ error. (devices : List Device)
        × ShowTargets H.Disk.device targets.new.disks.items devices
        × StopsTargets (targets_for (lent_path backup.entry) areas.now) devices error
        (H.desk host.old) (H.desk host.new)) }
{
    match backup {
        Some(dir) => hand_targets(host, dir, areas, targets),
        None => Ok(()),
    }
}

/// Puts the last of these targets back, where there is one. Says whether there was.
fn put_last<H: Host>(
    host: &mut H,
    dir: &str,
    areas: &[BoardArea],
    disks: &mut Vec<Option<H::Disk>>,
) -> bool
    requires there { All IsSome disks.old.items }
    requires few { length disks.old.items ≤ length areas.now }
    ensures last { PutsLast H.Disk.device dir.now areas.now disks.old.items disks.new.items
        (H.desk host.old) (H.desk host.new) result }
{
    let Some(target) = disks.pop() else {
        return false;
    };
    let Some(disk) = target else { unreachable!() };
    host.put_back(dir, areas[disks.len()].base.as_str(), disk);
    true
}

/// Puts targets that were handed out back, which are those of the first of these areas.
pub(crate) fn close_targets<H: Host>(
    host: &mut H,
    backup: Option<&str>,
    areas: &[BoardArea],
    mut disks: Vec<Option<H::Disk>>,
)
    requires targeted { HaveAllTargets (lent_path backup) areas.now }
    requires there { All IsSome disks.items }
    requires few { length disks.items ≤ length (targets_for (lent_path backup) areas.now) }
    ensures { (devices : List Device) → ShowTargets H.Disk.device disks.items devices
        → PutsBack (take (length devices) (targets_for (lent_path backup.entry) areas.now)) devices
        (H.desk host.old) (H.desk host.new) }
{
    if let Some(dir) = backup {
        while put_last(host, dir, areas, &mut disks) {}
    }
}
