//! A link in memory.
ghost use Rattle.std.specs.Prelude.{◌≡◌, ◌+◌, ◌-◌, ◌<◌, ◌≤◌, ◌++◌, ◌∷◌, [], List, ℕ, Option, None, Some, length, take, drop, slice_range};

use crate::failing::Failing;
use crate::link::{Link, LinkFailed};
use jb_bytes::Bytes;
use std::alloc::Global;

/// A link with an input that is there from the start, and an output that is kept. It fails the calls whose numbers, from 1,
/// it was given; such a call takes and sends nothing. Want of memory for the output is a failure of the link.
pub struct MemLink {
    input: Bytes,
    at: usize,
    output: Bytes,
    failing: Failing,
    faults: u64,
    ends: u64,
    unsent: u64,
    ghost within: { at ≤ length input },
}

// Whoever lets go of one does so in one call.
impl Drop for MemLink {
    fn drop(self) {
        let MemLink {
            input: _input,
            at: _at,
            output: _output,
            failing: _failing,
            faults: _faults,
            ends: _ends,
            unsent: _unsent,
        } = self;
    }
}

/// Puts as many bytes as there is place for into a slice, and answers how many.
fn fill(into: &mut [u8], from: &[u8]) -> usize
    ensures within { result ≤ length into.old }
    ensures all { result ≤ length from.now }
    ensures bytes { take result into.new ≡ take result from.now }
    ensures none { result ≡ 0 → 0 < length into.old → from.now ≡ [] }
{
    let n = into.len().min(from.len());
    into[..n].copy_from_slice(&from[..n]);
    n
}

impl MemLink {
    ghost use Rattle.jb_host.specs.Memory.{memory_wire, fresh_wire};

    /// A link on which these bytes come, and which fails the calls with these numbers.
    pub fn new(alloc: Global, input: Bytes, failing: Vec<u64>) -> MemLink
        ensures fresh { memory_wire result ≡ fresh_wire input }
        ensures told { result.failing.numbers ≡ failing }
        ensures none { result.failing.calls ≡ 0 }
    {
        MemLink {
            input,
            at: 0,
            output: Bytes::new(alloc),
            failing: Failing::new(failing),
            faults: 0,
            ends: 0,
            unsent: 0,
        }
    }

    /// The bytes that were sent.
    pub fn sent(&self) -> &[u8]
        ensures { (memory_wire self.now).sent ≡ Some result.now }
    {
        self.output.as_slice()
    }
}

impl Link for MemLink {
    ghost use Rattle.jb_host.specs.Failing.{IsFailingNext};
    ghost use Rattle.jb_host.specs.Memory.{memory_wire};

    ghost wire = { memory_wire };

    ghost fails_next = { λ link. IsFailingNext link.failing };

    fn read(&mut self, into: &mut [u8]) -> Result<usize, LinkFailed> {
        if self.failing.fails() {
            self.faults = self.faults.saturating_add(1);
            return Err(LinkFailed);
        }
        let n = fill(into, &self.input.as_slice()[self.at..]);
        self.at += n;
        let is_end = n == 0 && !into.is_empty();
        if is_end {
            self.ends = self.ends.saturating_add(1);
        }
        Ok(n)
    }

    fn write(&mut self, bytes: &[u8]) -> Result<usize, LinkFailed> {
        if self.failing.fails() || self.output.append(bytes).is_err() {
            self.faults = self.faults.saturating_add(1);
            self.unsent = self.unsent.saturating_add(1);
            return Err(LinkFailed);
        }
        Ok(bytes.len())
    }
}
