//! The workload on a disk, and its summary.
ghost use Rattle.std.specs.Prelude.{◌≡◌, ◌≤◌, IfOk, IsSome};
ghost use Rattle.std.specs.Option.{ForSome};
ghost use Rattle.jb_area.specs.Area.{device_of};
ghost use Rattle.jb_decide.specs.Errors.{is_area_fault};
ghost use Rattle.jb_disk.specs.Device.{CountsFaults};
ghost use Rattle.jb_tool.specs.LoadBase.{HaveNoByte};
ghost use Rattle.jb_tool.specs.LoadRuns.{IsFilled, IsLoaded, IsLoadReady, RestsAs};
ghost use Rattle.jb_tool.specs.LoadSummary.{run_summary};
ghost use Rattle.jb_tool.specs.Workload.{empty_area, load_run};

use crate::counts::Counts;
use crate::load_base::make_area;
use crate::running::run_all;
use crate::summary::summary;
use crate::workload::loader;
use jb_area::{AreaError, OpenArea};
use jb_base::{Bytes, OutOfMemory};
use jb_disk::{Disk, SteadyDisk};
use std::alloc::Global;

/// Room for each file of the disk of [`load_in_memory`], in bytes.
const ROOM: u64 = 67_108_864;

/// Runs the workload in an empty area, and gives its summary.
fn fill<D: Disk>(
    alloc: Global,
    area: &mut OpenArea<D>,
    seed: u32,
    count: u32,
) -> Result<Bytes, AreaError>
    requires ready { IsLoadReady D.device area.old }
    requires count { count ≤ 50_000 }
    ensures filled { IfOk result (λ text. IsSome (device_of D.device area.old).contents
        → RestsAs D.device area.old empty_area
        → IsFilled D.device seed count text area.new) }
    ensures faults { CountsFaults is_area_fault (device_of D.device area.old)
        (device_of D.device area.new) result }
{
    let user = loader(alloc)?;
    let mut counts = Counts::new();
    run_all(alloc, area, &mut counts, &user, seed, count)?;
    let text = summary(alloc, area.loaded(), area.rules(), &user, &counts)?;
    Ok(text)
}

/// Runs the workload of this seed in so many steps on a disk whose six files are empty, and gives its summary: eleven lines. The
/// files are then those of the last area. A store fault ends it, or want of memory; then the files are those of some part of it.
pub fn load<D: Disk>(alloc: Global, disk: D, seed: u32, count: u32) -> (D, Result<Bytes, AreaError>)
    requires count { count ≤ 50_000 }
    requires empty { ForSome (D.device disk).contents HaveNoByte }
    ensures loaded { IfOk result.1 (λ text. IsSome (D.device disk).contents
        → IsLoaded seed count text (D.device result.0)) }
    ensures faults { CountsFaults is_area_fault (D.device disk) (D.device result.0) result.1 }
{
    match make_area(alloc, disk) {
        Ok(area) => {
            let mut area = area;
            let answer = fill(alloc, &mut area, seed, count);
            (area.close(), answer)
        }
        Err((disk, error)) => (disk, Err(error)),
    }
}

/// The same on a disk in memory of its own, which is thrown away. That disk fails for want of memory alone, and such a fault is
/// answered as that.
pub fn load_in_memory(alloc: Global, seed: u32, count: u32) -> Result<Bytes, OutOfMemory>
    requires count { count ≤ 50_000 }
    ensures { IfOk result (λ text. text ≡ run_summary (load_run seed count)) }
{
    let disk = SteadyDisk::new(alloc, ROOM)?;
    let (_, answer) = load(alloc, disk, seed, count);
    match answer {
        Ok(text) => Ok(text),
        Err(_) => Err(OutOfMemory),
    }
}
