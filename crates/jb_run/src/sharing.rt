//! One area: its disk is taken from the host, opened and shared, and put back.
ghost use Rattle.std.specs.Prelude.{◌≡◌, ◌<◌, ◌≤◌, ℕ, All, Bool, IfErr, IfOk, List, length, map, ◌+◌};
ghost use Rattle.std.specs.Option.{ForSome};
ghost use Rattle.jb_limits.specs.declared.limits.TheConstants.{MOST_ADDRESS_BYTES, MOST_SLOTS, MOST_NODES};
ghost use Rattle.jb_disk.specs.Device.{Device};
ghost use Rattle.jb_host.specs.Desk.{GivesDisk, TakesBack, handed_out};
ghost use Rattle.jb_state.specs.Live.{live_count};
ghost use Rattle.jb_state.specs.State.{slot_state};
ghost use Rattle.jb_shared.specs.Areas.{IsOf, passes_of};
ghost use Rattle.jb_shared.specs.Closing.{known_by, HasEachNode};
ghost use Rattle.jb_run.specs.AreasErrors.{RefusesArea};
ghost use Rattle.jb_run.specs.Lives.{Ends, OpensOver, SharesArea};

use crate::areas_error::{AreasError, refused};
use crate::claiming::open_claimed;
use crate::meanings::{tell, tell_done};
use jb_area::OpenArea;
use jb_base::AreaRules;
use jb_conf::BoardArea;
use jb_disk::Disk;
use jb_host::Host;
use jb_shared::{Pass, SharedArea};
use jb_state::LoadedSlot;
use std::alloc::Global;
use std::sync::Wait;

/// An area that is open and shared.
pub(crate) struct Shared<D: Disk> {
    pub area: SharedArea<D>,
    /// One of each node, from 1 on.
    pub passes: Vec<Pass>,
    /// How many of its messages were live as it was opened.
    pub live: usize,
}

/// How many of these slots have a live message.
fn count_live(slots: &[LoadedSlot]) -> usize
    ensures { (texts : List ℕ) → result ≡ live_count (map (slot_state texts) slots.now) }
{
    slots
        .iter()
        .filter(|slot| matches!(slot, LoadedSlot::Live(_)))
        .count()
}

/// Opens an area by these rules over the disk that the host has for it; where that is refused the disk is back. The operator is told of
/// that, and of a change that waited in the journal.
fn open_disk<H: Host>(
    alloc: Global,
    host: &mut H,
    area: &BoardArea,
    place: u32,
    rules: AreaRules,
) -> Result<OpenArea<H::Disk>, AreasError>
    requires rules { rules ≡ area.now.rules }
    requires few_slots { area.now.rules.slots ≤ MOST_SLOTS }
    requires address { length area.now.rules.address ≤ MOST_ADDRESS_BYTES }
    ensures ok { IfOk result (λ opened. (before : Device)
        × GivesDisk area.now.dir area.now.base before (H.desk host.old) (H.desk host.new)
        × OpensOver H.Disk.device area.now.rules before opened) }
    ensures err { IfErr result (RefusesArea place area.now (H.desk host.old) (H.desk host.new)) }
{
    let disk = host.disk(area.dir.as_str(), area.base.as_str())?;
    let mut waited = false;
    match open_claimed(alloc, disk, rules, &mut waited) {
        Ok(opened) => {
            if waited {
                tell_done(alloc, host, area);
            }
            Ok(opened)
        }
        Err((disk, error)) => {
            host.put_back(area.dir.as_str(), area.base.as_str(), disk);
            let refusal = refused(place, error);
            if let AreasError::Area { .. } = refusal {
                tell(alloc, host, area, place, error);
            }
            Err(refusal)
        }
    }
}

/// Opens the area at this place of the board, counted from 1, and shares it among so many nodes; where that is refused its disk
/// is back.
pub(crate) fn share<R: Wait, H: Host>(
    rt: &R,
    alloc: Global,
    host: &mut H,
    area: &BoardArea,
    place: u32,
    nodes: u32,
) -> Result<Shared<H::Disk>, AreasError>
    requires few_slots { area.now.rules.slots ≤ MOST_SLOTS }
    requires address { length area.now.rules.address ≤ MOST_ADDRESS_BYTES }
    requires nodes { (0 < nodes) × (nodes ≤ MOST_NODES + 1) }
    ensures ok { IfOk result (λ shared. SharesArea H.Disk.device area.now nodes (H.desk host.old)
        (H.desk host.new) shared.area shared.passes.items shared.live) }
    ensures err { IfErr result (RefusesArea place area.now (H.desk host.old) (H.desk host.new)) }
{
    let rules = area.rules.copy(alloc)?;
    let opened = open_disk(alloc, host, area, place, rules)?;
    let live = count_live(opened.loaded().slots.as_slice());
    match SharedArea::new(rt, alloc, opened, nodes) {
        Ok((area, passes)) => Ok(Shared { area, passes, live }),
        Err(opened) => {
            host.put_back(area.dir.as_str(), area.base.as_str(), opened.close());
            Err(AreasError::OutOfMemory)
        }
    }
}

/// Closes an area with all its passes and puts its disk back. Says whether the area is in doubt.
pub(crate) fn end<R: Wait, H: Host>(
    rt: &R,
    host: &mut H,
    area: &BoardArea,
    shared: SharedArea<H::Disk>,
    passes: Vec<Pass>,
) -> bool
    requires ours { All (IsOf shared) passes.items }
    requires all { HasEachNode (known_by passes.items) (passes_of shared) }
    ensures { (after : Device) × TakesBack area.now.dir area.now.base after (H.desk host.old)
        (H.desk host.new) × Ends passes.items result after }
{
    match shared.close(rt, passes) {
        Ok(opened) => {
            let is_doubtful = opened.in_doubt();
            host.put_back(area.dir.as_str(), area.base.as_str(), opened.close());
            is_doubtful
        }
        Err(_kept) => unreachable!(),
    }
}
