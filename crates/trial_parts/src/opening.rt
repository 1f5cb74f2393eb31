//! Areas that are opened on files in memory.

ghost use Rattle.std.specs.Prelude.{IfOk};
ghost use Rattle.jb_area.specs.Calls.{HasRest};
ghost use Rattle.jb_disk.specs.Memory.{memory_device};

use jb_area::OpenArea;
use jb_area_open::{OpeningError, open_area};
use jb_disk::{Disk, MemDisk};
use std::alloc::Global;
use trial_rows::{Files, Row, RowError, Words, rules_of};

/// The area that is opened on a disk.
pub fn open_on<D: Disk + Drop>(alloc: Global, disk: D) -> Result<OpenArea<D>, RowError>
    ensures { IfOk result (HasRest D.device) }
{
    match open_area(alloc, disk, rules_of(alloc)?) {
        Ok(area) => Ok(area),
        Err(_) => Err(RowError::Unknown(0)),
    }
}

/// How many messages are live where this disk is opened, or why it is not.
pub fn live_on(alloc: Global, disk: MemDisk) -> Result<Result<u32, OpeningError>, RowError> {
    match open_area(alloc, disk, rules_of(alloc)?) {
        Ok(area) => {
            let live = area.loaded().active;
            let _disk = area.close();
            Ok(Ok(live))
        }
        Err((_disk, error)) => Ok(Err(error)),
    }
}

/// The area of these files, on a disk that fails the calls with these numbers.
pub fn open(alloc: Global, base: &Files, failing: &[u64]) -> Result<OpenArea<MemDisk>, RowError>
    ensures { IfOk result (HasRest memory_device) }
{
    match base.disk(alloc, failing) {
        Ok(disk) => open_on(alloc, disk),
        Err(_) => Err(RowError::OutOfMemory),
    }
}

/// The disk of the area of these files, once it was opened and closed again.
pub fn closed(alloc: Global, base: &Files) -> Result<MemDisk, RowError> {
    match open(alloc, base, &[]) {
        Ok(area) => Ok(area.close()),
        Err(error) => Err(error),
    }
}

/// The area of these files, on a disk that fails the calls with the numbers from this place of a row on, counted once it is open.
pub fn area_in(
    base: &Files,
    row: &Row,
    place: usize,
    words: &mut Words,
) -> Result<OpenArea<MemDisk>, RowError>
    ensures { IfOk result (HasRest memory_device) }
{
    let calls = match closed(words.alloc, base) {
        Ok(disk) => disk.calls(),
        Err(error) => return Err(error),
    };
    let failing = row.numbers(place, calls, words);
    open(words.alloc, base, failing.as_slice())
}
