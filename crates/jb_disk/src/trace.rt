//! What one file has been through, as a list of calls tells it.
ghost use Rattle.std.specs.Prelude.{◌≡◌, ◌+◌, ◌<◌, ◌≤◌, ◌&&◌, ℕ, List, IfOk, OnOk, length, nat_le, slice_index, if◌then◌else◌};
ghost use Rattle.jb_disk.specs.Files.{overwritten};
ghost use Rattle.jb_disk.specs.Images.{Unsynced, just_synced, torn, cut};
ghost use Rattle.jb_disk.specs.Memory.{of_length};
ghost use Rattle.jb_disk.specs.Crash.{IsPicked};
ghost use Rattle.jb_disk.specs.Trace.{IsTrace, FollowsCall, HasFollowed};

use crate::FileId;
use crate::call::Call;
use crate::memory::passes;
use crate::six::{overwrite, resize};
use jb_bytes::{Bytes, OutOfMemory};
use std::alloc::Global;

// What stands in each byte that a crash leaves open, where the worst is asked for.
const SPOILT: u8 = 0xA5;

/// A file as it was last synced, as it is read now, and as it was synced but with 0xA5 in each byte that was written since
/// and cut to the least length since; with the greatest length since.
pub(crate) struct Trace {
    synced: Vec<u8>,
    written: Vec<u8>,
    marred: Vec<u8>,
    greatest: usize,
}

// Whoever lets go of one does so in one call.
impl Drop for Trace {
    fn drop(self) {
        let Trace {
            synced: _synced,
            written: _written,
            marred: _marred,
            greatest: _greatest,
        } = self;
    }
}

impl Trace {
    /// A file just synced.
    pub(crate) fn new(alloc: Global, bytes: &[u8]) -> Result<Trace, OutOfMemory>
        ensures { IfOk result (λ trace. IsTrace (just_synced bytes.now) bytes.now trace) }
    {
        Ok(Trace {
            synced: bytes.to_vec(alloc)?,
            written: bytes.to_vec(alloc)?,
            marred: bytes.to_vec(alloc)?,
            greatest: bytes.len(),
        })
    }

    /// What a file has been through that was synced with these bytes and then saw these calls.
    pub(crate) fn of(
        alloc: Global,
        file: FileId,
        first: &[u8],
        calls: &[Call],
    ) -> Result<Trace, OutOfMemory>
        ensures { IfOk result (λ trace. HasFollowed file first.now calls.now trace) }
    {
        let mut trace = Trace::new(alloc, first)?;
        for call in calls {
            trace.follow(alloc, file, call)?;
        }
        Ok(trace)
    }

    /// One call more.
    pub(crate) fn follow(
        &mut self,
        alloc: Global,
        file: FileId,
        call: &Call,
    ) -> Result<(), OutOfMemory>
        ensures { OnOk result (FollowsCall file call.now self.old self.new) }
    {
        match call {
            Call::NoChange => Ok(()),
            Call::Wrote {
                file: other,
                at,
                bytes,
                done,
            } => {
                if file.number() == other.number() {
                    self.write(*at, bytes.as_slice(), *done);
                }
                Ok(())
            }
            Call::Resized {
                file: other,
                len,
                done,
            } => {
                if file.number() == other.number() {
                    self.resize(*len as usize, *done)?;
                }
                Ok(())
            }
            Call::Synced { file: other } => {
                if file.number() == other.number() {
                    *self = Trace::new(alloc, &self.written)?;
                }
                Ok(())
            }
        }
    }

    fn write(&mut self, at: u64, bytes: &[u8], done: bool)
        ensures { (u : Unsynced) (was : List ℕ) → IsTrace u was self.old
            → IsTrace (torn at (length bytes.now) u) (if done && nat_le (at + length bytes.now)
            (length was) then overwritten at bytes.now was else was) self.new }
    {
        mar(&mut self.marred, at, bytes.len());
        if done && !passes(self.written.len(), at, bytes.len()) {
            overwrite(&mut self.written, at as usize, bytes);
        }
    }

    fn resize(&mut self, len: usize, done: bool) -> Result<(), OutOfMemory>
        ensures { OnOk result ((u : Unsynced) (was : List ℕ) → IsTrace u was self.old
            → IsTrace (cut len u) (if done then of_length len was else was) self.new) }
    {
        self.marred.truncate(len);
        self.greatest = self.greatest.max(len);
        if done {
            resize(&mut self.written, len)?;
        }
        Ok(())
    }

    /// The file as a crash may have left it: 0 as synced, 1 as written, 2 with the greatest length and 0xA5 in each byte
    /// that is left open, 3 as written but cut to the least length.
    pub(crate) fn picked(self, pick: u8) -> Result<Bytes, OutOfMemory>
        requires { pick ≤ 3 }
        ensures { IfOk result (λ bytes. (u : Unsynced) (was : List ℕ) → u.least ≤ u.greatest
            → IsTrace u was self → IsPicked pick u was bytes) }
    {
        let Trace {
            synced,
            mut written,
            mut marred,
            greatest,
        } = self;
        match pick {
            0 => Ok(Bytes::from(synced)),
            1 => Ok(Bytes::from(written)),
            2 => {
                marred.resize(greatest, SPOILT)?;
                Ok(Bytes::from(marred))
            }
            _ => {
                written.truncate(marred.len());
                Ok(Bytes::from(written))
            }
        }
    }
}

// Puts 0xA5 into each byte of the range that is there.
fn mar(bytes: &mut Vec<u8>, at: u64, len: usize)
    ensures same { length bytes.new.items ≡ length bytes.old.items }
    ensures inside { (i : ℕ) → i < length bytes.old.items → at ≤ i → i < at + len
        → slice_index bytes.new.items i ≡ 0xA5 }
    ensures outside { (i : ℕ) → (at ≤ i → i < at + len → ⊥)
        → slice_index bytes.new.items i ≡ slice_index bytes.old.items i }
{
    let most = bytes.len() as u64;
    let from = at.min(most);
    let to = at.saturating_add(len as u64).min(most);
    bytes[from as usize..to as usize].fill(SPOILT);
}
