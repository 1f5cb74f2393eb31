//! The disk of an area is claimed, and the area opened over it.
ghost use Rattle.std.specs.Prelude.{◌≤◌, ℕ, IfErr, IfOk, length};
ghost use Rattle.jb_limits.specs.declared.limits.TheConstants.{MOST_ADDRESS_BYTES, MOST_SLOTS};
ghost use Rattle.jb_disk.specs.Device.{FailsBy, OnlyReads};
ghost use Rattle.jb_run.specs.AreasErrors.{RefusesDisk, refused_at};
ghost use Rattle.jb_run.specs.Lives.{OpensOver};

use jb_area::OpenArea;
use jb_area_open::{OpeningError, open_area};
use jb_base::AreaRules;
use jb_disk::{Disk, DiskFailed};
use jb_image::OpenError;
use jb_journal::is_gate_open;
use std::alloc::Global;

/// Sees that each file that is there can be written, and whether a change waits in the journal.
fn claim<D: Disk>(disk: &mut D) -> Result<bool, DiskFailed>
    ensures kept { OnlyReads (D.device disk.old) (D.device disk.new) }
    ensures cause { FailsBy ⊥ (D.device disk.old) (D.device disk.new) result }
{
    disk.claim()?;
    is_gate_open(disk)
}

/// Opens an area by these rules over this disk, of which each file that is there can be written: of one in which no message could
/// ever be posted a board is to say so before it takes calls. A refusal hands the disk back. `waited` is then whether a change
/// waited in the journal, which an area that is opened has done.
pub(crate) fn open_claimed<D: Disk>(
    alloc: Global,
    disk: D,
    rules: AreaRules,
    waited: &mut bool,
) -> Result<OpenArea<D>, (D, OpeningError)>
    requires few_slots { rules.slots ≤ MOST_SLOTS }
    requires address { length rules.address ≤ MOST_ADDRESS_BYTES }
    ensures ok { IfOk result (OpensOver D.device rules (D.device disk)) }
    ensures err { IfErr result (λ back. (place : ℕ) → RefusesDisk place rules.slots (D.device disk)
        (D.device back.0) (refused_at place back.1)) }
{
    let mut disk = disk;
    match claim(&mut disk) {
        Ok(waits) => {
            *waited = waits;
            open_area(alloc, disk, rules)
        }
        Err(DiskFailed) => Err((disk, OpeningError::Base(OpenError::StoreFault))),
    }
}
