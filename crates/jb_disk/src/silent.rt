//! A disk over another that tells nothing, counts its calls and may stop after some of them.
ghost use Rattle.std.specs.Prelude.{◌≡◌, ◌≤◌, ◌+◌, Ok, IfOk, OnOk, OnErr, IsErr};
ghost use Rattle.jb_bytes.specs.Fault.{Rose};

use crate::memory::fault;
use crate::{Disk, DiskFailed, FileId};

/// Another disk, of which only the failures are told, as of one over real files. It counts the calls that it passes on, and past
/// its limit it passes on none: each is refused, and nothing is done, as where the program has ended.
#[derive(Drop)]
pub struct SilentDisk<D: Disk + Drop> {
    /// The other disk.
    pub disk: D,
    limit: u64,
    calls: u64,
    syncs: u64,
    /// How often a call was refused.
    pub faults: u64,
}

impl<D: Disk + Drop> SilentDisk<D> {
    ghost use Rattle.jb_disk.specs.Silent.{silent_device};

    /// This disk, for as many calls as can be counted.
    pub fn new(disk: D) -> SilentDisk<D>
        ensures other { result.disk ≡ disk }
        ensures fresh { silent_device result.faults ≡ silent_device 0 }
    {
        SilentDisk::stopping(disk, u64::MAX)
    }

    /// This disk, for so many calls.
    pub fn stopping(disk: D, limit: u64) -> SilentDisk<D>
        ensures other { result.disk ≡ disk }
        ensures limit { result.limit ≡ limit }
        ensures none { result.calls ≡ 0 }
        ensures fresh { silent_device result.faults ≡ silent_device 0 }
    {
        SilentDisk {
            disk,
            limit,
            calls: 0,
            syncs: 0,
            faults: 0,
        }
    }

    /// How many calls were passed on.
    pub fn calls(&self) -> u64
        ensures { result ≡ self.now.calls }
    {
        self.calls
    }

    /// How many of them were syncs.
    pub fn syncs(&self) -> u64
        ensures { result ≡ self.now.syncs }
    {
        self.syncs
    }

    // Counts a call that is passed on, or refuses it.
    fn pass(&mut self) -> Result<(), DiskFailed>
        ensures ok { OnOk result (self.new.faults ≡ self.old.faults) }
        ensures err { OnErr result (Rose self.old.faults self.new.faults) }
        ensures later { self.old.faults ≤ self.new.faults }
        ensures stopped { self.old.limit ≤ self.old.calls → IsErr result }
        ensures counted { OnOk result (self.new.calls ≡ self.old.calls + 1) }
        ensures other { self.new.disk ≡ self.old.disk }
    {
        if self.calls >= self.limit {
            return Err(fault(&mut self.faults));
        }
        self.calls += 1;
        Ok(())
    }
}

impl<D: Disk + Drop> Disk for SilentDisk<D> {
    ghost use Rattle.std.specs.Prelude.{◌⊎◌, ◌≤◌};
    ghost use Rattle.jb_disk.specs.Silent.{silent_device, tells_nothing};

    ghost device = { λ silent. silent_device silent.faults };

    ghost fails_next = { λ silent. (silent.limit ≤ silent.calls) ⊎ D.fails_next silent.disk };

    fn len(&mut self, file: FileId) -> Result<u64, DiskFailed> {
        self.pass()?;
        counted(&mut self.faults, self.disk.len(file))
    }

    fn read_at(&mut self, file: FileId, at: u64, into: &mut [u8]) -> Result<(), DiskFailed> {
        self.pass()?;
        counted(&mut self.faults, self.disk.read_at(file, at, into))
    }

    fn write_at(&mut self, file: FileId, at: u64, bytes: &[u8]) -> Result<(), DiskFailed> {
        self.pass()?;
        counted(&mut self.faults, self.disk.write_at(file, at, bytes))
    }

    fn set_len(&mut self, file: FileId, len: u64) -> Result<(), DiskFailed> {
        self.pass()?;
        counted(&mut self.faults, self.disk.set_len(file, len))
    }

    fn sync(&mut self, file: FileId) -> Result<(), DiskFailed> {
        self.pass()?;
        self.syncs = self.syncs.saturating_add(1);
        counted(&mut self.faults, self.disk.sync(file))
    }

    fn claim(&mut self) -> Result<(), DiskFailed> {
        counted(&mut self.faults, self.disk.claim())
    }

    ghost told = { λ silent. tells_nothing silent.faults };
}

/// What another object answered, as a disk's answer, with an error counted.
pub fn counted<T: Drop, E: Drop>(faults: &mut u64, answer: Result<T, E>) -> Result<T, DiskFailed>
    ensures same { IfOk answer (λ value. result ≡ Ok value) }
    ensures refused { OnErr answer (IsErr result) }
    ensures ok { OnOk result (faults.new ≡ faults.old) }
    ensures err { OnErr result (Rose faults.old faults.new) }
    ensures later { faults.old ≤ faults.new }
{
    match answer {
        Ok(value) => Ok(value),
        Err(_) => Err(fault(faults)),
    }
}
