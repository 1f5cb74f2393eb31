//! The steps, one after another.
ghost use Rattle.std.specs.Prelude.{◌≡◌, ◌+◌, ◌-◌, ◌<◌, ◌≤◌, ◌^◌};
ghost use Rattle.jb_tool.specs.LoadRuns.{Goes, IsLoadReady, answers_in};
ghost use Rattle.jb_tool.specs.Workload.{behind_step, in_step, loader, run_to, whole_run};

use crate::asking::{ask_mark, ask_pack, ask_step};
use crate::counts::Counts;
use jb_area::{AreaError, OpenArea};
use jb_base::User;
use jb_disk::Disk;
use std::alloc::Global;

/// Behind the step that ends the first half, has the area packed and all marked as read.
fn run_behind<D: Disk>(
    alloc: Global,
    area: &mut OpenArea<D>,
    counts: &mut Counts,
    user: &User,
    count: u32,
    step: u32,
) -> Result<(), AreaError>
    requires ready { IsLoadReady D.device area.old }
    requires few { answers_in counts.old < 2 ^ 32 - 2 }
    requires user { user.now ≡ loader }
    ensures { Goes D.device 2 area.old area.new counts.old counts.new (behind_step count step) result }
{
    if step != count / 2 {
        return Ok(());
    }
    ask_pack(alloc, area, counts, user, step)?;
    ask_mark(alloc, area, counts, user, step)
}

/// A step, and what comes behind it.
fn run_step<D: Disk>(
    alloc: Global,
    area: &mut OpenArea<D>,
    counts: &mut Counts,
    user: &User,
    seed: u32,
    count: u32,
    step: u32,
) -> Result<(), AreaError>
    requires ready { IsLoadReady D.device area.old }
    requires few { answers_in counts.old < 2 ^ 32 - 4 }
    requires user { user.now ≡ loader }
    requires behind { 1 ≤ step }
    requires low { step ≤ 50_000 }
    ensures { Goes D.device 4 area.old area.new counts.old counts.new
        (λ run. behind_step count step (in_step seed step run)) result }
{
    ask_step(alloc, area, counts, user, seed, step)?;
    run_behind(alloc, area, counts, user, count, step)
}

/// All steps.
fn run_steps<D: Disk>(
    alloc: Global,
    area: &mut OpenArea<D>,
    counts: &mut Counts,
    user: &User,
    seed: u32,
    count: u32,
) -> Result<(), AreaError>
    requires ready { IsLoadReady D.device area.old }
    requires none { answers_in counts.old ≡ 0 }
    requires user { user.now ≡ loader }
    requires low { count ≤ 50_000 }
    ensures { Goes D.device 200_002 area.old area.new counts.old counts.new (run_to seed count count) result }
{
    run_behind(alloc, area, counts, user, count, 0)?;
    for done in 0..count {
        run_step(alloc, area, counts, user, seed, count, done + 1)?;
    }
    Ok(())
}

/// The whole run: all steps, and a pack.
pub(crate) fn run_all<D: Disk>(
    alloc: Global,
    area: &mut OpenArea<D>,
    counts: &mut Counts,
    user: &User,
    seed: u32,
    count: u32,
) -> Result<(), AreaError>
    requires ready { IsLoadReady D.device area.old }
    requires none { answers_in counts.old ≡ 0 }
    requires user { user.now ≡ loader }
    requires low { count ≤ 50_000 }
    ensures { Goes D.device 200_003 area.old area.new counts.old counts.new (whole_run seed count) result }
{
    run_steps(alloc, area, counts, user, seed, count)?;
    ask_pack(alloc, area, counts, user, count)
}
