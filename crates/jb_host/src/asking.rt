//! What a host in memory was asked for.
ghost use Rattle.std.specs.Prelude.{◌≡◌, ◌≤◌, ◌++◌, ◌∷◌, [], IfErr, IfOk, IsErr, OnOk, Some};
ghost use Rattle.jb_bytes.specs.Fault.{Rose};
ghost use Rattle.jb_host.specs.Desk.{HasHostCause, asked_disk, asked_settings, calls_after};
ghost use Rattle.jb_host.specs.Failing.{IsFailingNext};
ghost use Rattle.jb_host.specs.Shelves.{asked_by, asked_of};

use crate::failing::Failing;
use crate::host::HostError;
use jb_bytes::Bytes;
use std::alloc::Global;

/// A call that was answered other than for want of memory.
#[derive(Drop)]
pub enum Call {
    /// For the disk of a base.
    Disk {
        dir: Bytes,
        name: Bytes,
    },
    /// For a settings file.
    Settings {
        path: Bytes,
    },
    /// For the door of a node.
    Door {
        node: u32,
        port: u16,
        calls: Option<u32>,
    },
    /// For the bell.
    Bell {
        areas: u32,
        minutes: u32,
        calls: Option<u32>,
    },
}

/// The call for the disk of this base.
pub(crate) fn disk_call(alloc: Global, dir: &str, name: &str) -> Result<Call, HostError>
    ensures ok { IfOk result (λ call. asked_by call ≡ asked_disk dir.now name.now) }
    ensures err { IfErr result (λ error. error ≡ HostError.OutOfMemory) }
{
    let dir = Bytes::copy(alloc, dir.as_bytes())?;
    let name = Bytes::copy(alloc, name.as_bytes())?;
    Ok(Call::Disk { dir, name })
}

/// The call for the settings file at this path.
pub(crate) fn settings_call(alloc: Global, path: &str) -> Result<Call, HostError>
    ensures ok { IfOk result (λ call. asked_by call ≡ asked_settings path.now) }
    ensures err { IfErr result (λ error. error ≡ HostError.OutOfMemory) }
{
    let path = Bytes::copy(alloc, path.as_bytes())?;
    Ok(Call::Settings { path })
}

/// The calls that a host answered other than for want of memory, in order, those of them that it is to fail, and how often it has
/// failed.
pub struct Asking {
    calls: Vec<Call>,
    failing: Failing,
    faults: u64,
}

// Whoever lets go of one does so in one call.
impl Drop for Asking {
    fn drop(self) {
        let Asking {
            calls: _calls,
            failing: _failing,
            faults: _faults,
        } = self;
    }
}

impl Asking {
    /// No call yet, and these are to fail.
    pub(crate) fn new(alloc: Global, failing: Vec<u64>) -> Asking
        ensures asked { asked_of result ≡ [] }
        ensures told { result.failing.numbers ≡ failing }
        ensures none { result.failing.calls ≡ 0 }
        ensures faults { result.faults ≡ 0 }
    {
        Asking {
            calls: Vec::new(alloc),
            failing: Failing::new(failing),
            faults: 0,
        }
    }

    /// Notes a call, and refuses it where it is one that fails, or for want of memory.
    pub(crate) fn begin(&mut self, call: Call) -> Result<(), HostError>
        ensures ok { OnOk result (asked_of self.new ≡ asked_of self.old ++ asked_by call ∷ []) }
        ensures quiet { OnOk result (self.new.faults ≡ self.old.faults) }
        ensures err { IfErr result (λ error. Some (asked_of self.new)
            ≡ calls_after error (asked_by call) (Some (asked_of self.old))) }
        ensures cause { IfErr result (λ error. HasHostCause error self.old.faults self.new.faults) }
        ensures later { self.old.faults ≤ self.new.faults }
        ensures listed { IsFailingNext self.old.failing → IsErr result }
    {
        if self.calls.push(call).is_err() {
            return Err(HostError::OutOfMemory);
        }
        if self.failing.fails() {
            return Err(self.refuse());
        }
        Ok(())
    }

    /// Counts a fault.
    pub(crate) fn refuse(&mut self) -> HostError
        ensures failed { result ≡ HostError.Failed }
        ensures rose { Rose self.old.faults self.new.faults }
        ensures later { self.old.faults ≤ self.new.faults }
        ensures asked { asked_of self.new ≡ asked_of self.old }
    {
        self.faults = self.faults.saturating_add(1);
        HostError::Failed
    }
}
