//! Six files in memory that tell what a crash at each moment may leave.
ghost use Rattle.std.specs.Prelude.{◌≡◌, ◌⊎◌, ◌+◌, ◌<◌, ◌≤◌, ◌↔◌, IsTrue, ◌++◌, [], ◌∷◌, Contains, length, reverse, true, false, IfOk, IsErr, OnOk, OnErr};
ghost use Rattle.jb_bytes.specs.Fault.{Rose};
ghost use Rattle.jb_disk.specs.Memory.{FailsNext, MayFail, files_of_list, memory_device, fresh_device, IsQuiet};
ghost use Rattle.jb_disk.specs.MemoryLaws.{tells_an_image};
ghost use Rattle.jb_disk.specs.Images.{IsImage};
ghost use Rattle.jb_disk.specs.Moments.{MightLeave};
ghost use Rattle.jb_disk.specs.Crash.{IsPicked, images_at, contents_at};

use crate::call::Call;
use crate::six::Six;
use crate::trace::Trace;
use crate::{Disk, DiskFailed, FileId};
use jb_bytes::{Bytes, OutOfMemory};
use std::alloc::Global;
use std::marker::Model;

/// Six files in memory. The disk keeps all its calls, so that it tells every image that the trait allows, and it fails
/// those whose numbers it was given: such a call changes nothing of what is read, and a crash may leave it half made.
/// Want of memory is a fault of the device.
pub struct MemDisk {
    alloc: Global,
    first: [Bytes; 6],
    present: Six,
    calls: Vec<Call>,
    failing: Vec<u64>,
    faults: u64,
}

// Whoever lets go of one does so in one call.
impl Drop for MemDisk {
    fn drop(self) {
        let MemDisk {
            alloc: _alloc,
            first: _first,
            present: _present,
            calls: _calls,
            failing: _failing,
            faults: _faults,
        } = self;
    }
}

impl Model for MemDisk {
    ghost use Rattle.std.specs.Prelude.{◌≡◌, reverse};
    ghost use Rattle.jb_disk.specs.declared.file.FileId.{FileId};
    ghost use Rattle.jb_disk.specs.Memory.{Recording, files_of_list, files_of, contents_after};

    ghost Value = { Recording };

    ghost view = { λ disk. record { first = disk.first; calls = disk.calls.items; faults = disk.faults; failing = disk.failing.items } };

    ghost invariant = { λ disk. (file : FileId) → files_of disk.present file ≡ contents_after (files_of_list disk.first) (reverse disk.calls.items) file };
}

impl MemDisk {
    ghost use Rattle.jb_disk.specs.declared.file.FileId.{FileId};
    ghost use Rattle.jb_disk.specs.Memory.{contents_after};

    /// A disk with these files, all of them synced. It fails the calls with these numbers, from 1; every call counts.
    pub fn new(alloc: Global, files: [Bytes; 6], failing: Vec<u64>) -> Result<MemDisk, OutOfMemory>
        ensures first { IfOk result (λ disk. disk.first ≡ files) }
        ensures none { IfOk result (λ disk. disk.calls ≡ []) }
        ensures told { IfOk result (λ disk. disk.failing ≡ failing.items) }
        ensures fresh { IfOk result (λ disk. memory_device disk ≡ fresh_device (files_of_list files)) }
    {
        let present = Six::copy(alloc, &files)?;
        Ok(MemDisk {
            alloc,
            first: files,
            present,
            calls: Vec::new(alloc),
            failing,
            faults: 0,
        })
    }

    /// What a file holds now. This is no call of the disk.
    pub fn file(&self, file: FileId) -> &[u8]
        ensures { result.now ≡ contents_after (files_of_list self.now.first) (reverse self.now.calls) file }
    {
        self.present.file(file)
    }

    /// How often it has failed.
    pub fn faults(&self) -> u64
        ensures { result ≡ (memory_device self.now).faults }
    {
        self.faults
    }

    /// How many calls have been made.
    pub fn calls(&self) -> u64
        ensures { result ≡ length self.now.calls }
    {
        self.calls.len() as u64
    }

    /// A synced disk with the files that a crash after the first so many calls might have left, by the pick: 0 as they were
    /// synced, 1 as they were written, 2 with the greatest length and 0xA5 in each byte that was left open, 3 as they were
    /// written but cut to the least length.
    pub fn crashed(&self, after: u64, pick: u8) -> Result<MemDisk, OutOfMemory>
        requires within { after ≤ length self.now.calls }
        requires known { pick ≤ 3 }

        // The disk holds what the pick asks for, synced.
        ensures fresh { IfOk result (λ disk. memory_device disk ≡ fresh_device (files_of_list disk.first)) }
        ensures found { IfOk result (λ disk. (file : FileId)
            → IsPicked pick (images_at after self.now file) (contents_at after self.now file)
            (files_of_list disk.first file)) }

        // A crash after so many calls might have left that.
        ensures image { IfOk result (λ disk. IsImage (images_at after self.now) (files_of_list disk.first)) }
        ensures crash { IfOk result (λ disk. MightLeave (memory_device self.now).moments (files_of_list disk.first)) }
    {
        let after = after as usize;
        let files = [
            self.left(FileId::Jhr, after, pick)?,
            self.left(FileId::Jdt, after, pick)?,
            self.left(FileId::Jdx, after, pick)?,
            self.left(FileId::Jlr, after, pick)?,
            self.left(FileId::Jnl, after, pick)?,
            self.left(FileId::Ndt, after, pick)?,
        ];
        MemDisk::new(self.alloc, files, Vec::new(self.alloc))
    }

    // What a crash after so many calls might have left of one file.
    fn left(&self, file: FileId, after: usize, pick: u8) -> Result<Bytes, OutOfMemory>
        requires within { after ≤ length self.now.calls }
        requires known { pick ≤ 3 }
        ensures { IfOk result (λ bytes. IsPicked pick (images_at after self.now file)
            (contents_at after self.now file) bytes) }
    {
        let first = self.first[file.number() as usize].as_slice();
        let trace = Trace::of(self.alloc, file, first, &self.calls[..after])?;
        trace.picked(pick)
    }
}

impl Disk for MemDisk {
    ghost device = { memory_device };

    ghost fails_next = { FailsNext };

    ghost may_fail = { MayFail };

    fn len(&mut self, file: FileId) -> Result<u64, DiskFailed> {
        note(
            &self.failing,
            &mut self.calls,
            Call::NoChange,
            &mut self.faults,
        )?;
        Ok(self.present.file(file).len() as u64)
    }

    fn read_at(&mut self, file: FileId, at: u64, into: &mut [u8]) -> Result<(), DiskFailed> {
        if passes(self.present.file(file).len(), at, into.len()) {
            return Err(refuse(&mut self.calls));
        }
        note(
            &self.failing,
            &mut self.calls,
            Call::NoChange,
            &mut self.faults,
        )?;
        let from = at as usize;
        into.copy_from_slice(&self.present.file(file)[from..from + into.len()]);
        Ok(())
    }

    fn write_at(&mut self, file: FileId, at: u64, bytes: &[u8]) -> Result<(), DiskFailed> {
        if passes(self.present.file(file).len(), at, bytes.len()) {
            return Err(refuse(&mut self.calls));
        }
        let fails = fails(&self.failing, &self.calls);
        let Ok(copy) = bytes.to_vec(self.alloc) else {
            return Err(fault(&mut self.faults));
        };
        let call = Call::Wrote {
            file,
            at,
            bytes: copy,
            done: !fails,
        };
        keep(&mut self.calls, call, fails, &mut self.faults)?;
        self.present.overwrite(file, at as usize, bytes);
        Ok(())
    }

    fn set_len(&mut self, file: FileId, len: u64) -> Result<(), DiskFailed> {
        let before = self.calls.len();
        let fails = fails(&self.failing, &self.calls);
        let call = Call::Resized {
            file,
            len,
            done: !fails,
        };
        keep(&mut self.calls, call, fails, &mut self.faults)?;
        if self.present.resize(file, len as usize).is_err() {
            self.calls.truncate(before);
            return Err(fault(&mut self.faults));
        }
        Ok(())
    }

    fn sync(&mut self, file: FileId) -> Result<(), DiskFailed> {
        let call = Call::Synced { file };
        note(&self.failing, &mut self.calls, call, &mut self.faults)
    }

    ghost told = { tells_an_image };
}

// Whether the range ends past the file's end.
pub(crate) fn passes(len: usize, at: u64, count: usize) -> bool
    ensures { IsTrue result ↔ (len < at + count) }
{
    count > len || at > (len - count) as u64
}

// Whether the call that comes now is one that fails.
fn fails(failing: &[u64], calls: &[Call]) -> bool
    ensures { IsTrue result ↔ Contains failing.now (length calls.now + 1) }
{
    failing.contains(&(calls.len() as u64 + 1))
}

// One fault more.
pub(crate) fn fault(faults: &mut u64) -> DiskFailed
    ensures rose { Rose faults.old faults.new }
    ensures later { faults.old ≤ faults.new }
{
    *faults = faults.saturating_add(1);
    DiskFailed
}

// A call past an end is no fault. Where there is no memory to keep it, it is not kept.
fn refuse(calls: &mut Vec<Call>) -> DiskFailed
    ensures { IsQuiet calls.old.items calls.new.items }
{
    let _ = calls.push(Call::NoChange);
    DiskFailed
}

// Keeps a call. One that fails is kept too, for a crash may leave it half made.
fn keep(calls: &mut Vec<Call>, call: Call, fails: bool, faults: &mut u64) -> Result<(), DiskFailed>
    ensures ok { OnOk result ((fails ≡ false) × (calls.new.items ≡ calls.old.items ++ call ∷ [])) }
    ensures err { OnErr result ((calls.new.items ≡ calls.old.items)
        ⊎ ((fails ≡ true) × (calls.new.items ≡ calls.old.items ++ call ∷ []))) }
    ensures quiet { OnOk result (faults.new ≡ faults.old) }
    ensures counted { OnErr result (Rose faults.old faults.new) }
    ensures later { faults.old ≤ faults.new }
{
    if calls.push(call).is_err() || fails {
        return Err(fault(faults));
    }
    Ok(())
}

// Keeps a call that is done whole or not at all. In place of one that fails it keeps that there was one.
fn note(
    failing: &[u64],
    calls: &mut Vec<Call>,
    call: Call,
    faults: &mut u64,
) -> Result<(), DiskFailed>
    ensures ok { OnOk result (calls.new.items ≡ calls.old.items ++ call ∷ []) }
    ensures err { OnErr result (IsQuiet calls.old.items calls.new.items) }
    ensures files_of_list { Contains failing.now (length calls.old.items + 1) → IsErr result }
    ensures spared { OnErr result (Contains failing.now (length calls.old.items + 1)
        ⊎ (calls.new.items ≡ calls.old.items)) }
    ensures quiet { OnOk result (faults.new ≡ faults.old) }
    ensures counted { OnErr result (Rose faults.old faults.new) }
    ensures later { faults.old ≤ faults.new }
{
    if fails(failing, calls) {
        return keep(calls, Call::NoChange, true, faults);
    }
    keep(calls, call, false, faults)
}
