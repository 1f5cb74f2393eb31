//! Commands of the user, each done and counted.
ghost use Rattle.std.specs.Prelude.{◌≡◌, ◌+◌, ◌-◌, ◌<◌, ◌≤◌, ◌%◌, ◌^◌, length};
ghost use Rattle.jb_area.specs.Area.{loaded_of};
ghost use Rattle.jb_tool.specs.LoadRuns.{Goes, IsLoadReady, answers_in};
ghost use Rattle.jb_tool.specs.Workload.{asked, in_step, loader, marked, post_of_step, tenth};
ghost use Rattle.jb_state.specs.State.{next_number};
ghost use Rattle.jb_model.specs.declared.command.Command.TheVariants.{Pack as Packing};

use crate::counts::Counts;
use crate::workload::{first_of_ten, post};
use jb_area::{AreaError, OpenArea};
use jb_base::User;
use jb_disk::Disk;
use jb_model::Command;
use std::alloc::Global;

/// The number that the next message gets.
fn next_number<D: Disk>(area: &OpenArea<D>) -> u32
    requires { IsLoadReady D.device area.now }
    ensures next { result ≡ (loaded_of area.now).base + length (loaded_of area.now).slots }
    ensures low { 1 ≤ result }
{
    let loaded = area.loaded();
    loaded.base + loaded.slots.as_slice().len() as u32
}

/// Has a command done at this moment, and counts its answer.
fn ask<D: Disk>(
    alloc: Global,
    area: &mut OpenArea<D>,
    counts: &mut Counts,
    user: &User,
    moment: u32,
    command: &Command,
) -> Result<(), AreaError>
    requires ready { IsLoadReady D.device area.old }
    requires few { answers_in counts.old < 2 ^ 32 - 1 }
    requires user { user.now ≡ loader }
    ensures { Goes D.device 1 area.old area.new counts.old counts.new (asked moment command.now) result }
{
    match area.run(alloc, user, moment, command) {
        Ok(reply) => {
            counts.count(&reply);
            Ok(())
        }
        Err(error) => Err(error),
    }
}

/// Posts the message of a step.
fn ask_post<D: Disk>(
    alloc: Global,
    area: &mut OpenArea<D>,
    counts: &mut Counts,
    user: &User,
    seed: u32,
    step: u32,
) -> Result<(), AreaError>
    requires ready { IsLoadReady D.device area.old }
    requires few { answers_in counts.old < 2 ^ 32 - 1 }
    requires user { user.now ≡ loader }
    ensures { Goes D.device 1 area.old area.new counts.old counts.new
        (λ run. asked step (post_of_step seed step (next_number run.area)) run) result }
{
    let command = post(alloc, seed, step, next_number(area))?;
    ask(alloc, area, counts, user, step, &command)
}

/// Reads the first message of ten steps, and kills one of them.
fn ask_tenth<D: Disk>(
    alloc: Global,
    area: &mut OpenArea<D>,
    counts: &mut Counts,
    user: &User,
    seed: u32,
    step: u32,
) -> Result<(), AreaError>
    requires ready { IsLoadReady D.device area.old }
    requires few { answers_in counts.old < 2 ^ 32 - 2 }
    requires user { user.now ≡ loader }
    requires tenth { step % 10 ≡ 0 }
    requires behind { 1 ≤ step }
    requires low { step ≤ 50_000 }
    ensures { Goes D.device 2 area.old area.new counts.old counts.new (tenth seed step) result }
{
    let number = first_of_ten(step);
    ask(alloc, area, counts, user, step, &Command::Read { number })?;
    let number = number + seed % 9;
    ask(alloc, area, counts, user, step, &Command::Kill { number })
}

/// Does what a step asks.
pub(crate) fn ask_step<D: Disk>(
    alloc: Global,
    area: &mut OpenArea<D>,
    counts: &mut Counts,
    user: &User,
    seed: u32,
    step: u32,
) -> Result<(), AreaError>
    requires ready { IsLoadReady D.device area.old }
    requires few { answers_in counts.old < 2 ^ 32 - 2 }
    requires user { user.now ≡ loader }
    requires behind { 1 ≤ step }
    requires low { step ≤ 50_000 }
    ensures { Goes D.device 2 area.old area.new counts.old counts.new (in_step seed step) result }
{
    if step % 10 == 0 {
        ask_tenth(alloc, area, counts, user, seed, step)
    } else {
        ask_post(alloc, area, counts, user, seed, step)
    }
}

/// Has the area packed.
pub(crate) fn ask_pack<D: Disk>(
    alloc: Global,
    area: &mut OpenArea<D>,
    counts: &mut Counts,
    user: &User,
    moment: u32,
) -> Result<(), AreaError>
    requires ready { IsLoadReady D.device area.old }
    requires few { answers_in counts.old < 2 ^ 32 - 1 }
    requires user { user.now ≡ loader }
    ensures { Goes D.device 1 area.old area.new counts.old counts.new (asked moment Packing) result }
{
    ask(alloc, area, counts, user, moment, &Command::Pack)
}

/// Has all messages marked as read.
pub(crate) fn ask_mark<D: Disk>(
    alloc: Global,
    area: &mut OpenArea<D>,
    counts: &mut Counts,
    user: &User,
    moment: u32,
) -> Result<(), AreaError>
    requires ready { IsLoadReady D.device area.old }
    requires few { answers_in counts.old < 2 ^ 32 - 1 }
    requires user { user.now ≡ loader }
    ensures { Goes D.device 1 area.old area.new counts.old counts.new (marked moment) result }
{
    let number = next_number(area) - 1;
    ask(
        alloc,
        area,
        counts,
        user,
        moment,
        &Command::SetMark { number },
    )
}
