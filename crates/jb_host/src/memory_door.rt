//! A door in memory.
ghost use Rattle.std.specs.Prelude.{◌≡◌, ◌+◌, ◌-◌, ◌≤◌, ℕ, Some, IfOk, map, length, vec_len, vec_capacity};

use crate::door::{Accepted, Door, DoorFailed};
use crate::failing::Failing;
use crate::memory::MemLink;
use jb_bytes::OutOfMemory;
use std::alloc::Global;

/// A door that gives its links in order and is then shut, and keeps those that are hung up. It fails the calls of `accept` whose
/// numbers, from 1, it was given; such a call gives nothing.
pub struct MemDoor {
    links: Vec<MemLink>,
    hung: Vec<MemLink>,
    failing: Failing,
    faults: u64,
    is_shut: bool,
    ghost roomy: { vec_len links + vec_len hung ≤ vec_capacity hung },
}

// Whoever lets go of one does so in one call.
impl Drop for MemDoor {
    fn drop(self) {
        let MemDoor {
            links: _links,
            hung: _hung,
            failing: _failing,
            faults: _faults,
            is_shut: _is_shut,
        } = self;
    }
}

impl MemDoor {
    ghost use Rattle.jb_host.specs.Memory.{fresh_gate, memory_gate, memory_wire};

    /// A door with these links, which fails the calls of `accept` with these numbers. It takes memory for as many links, as they are
    /// hung up.
    pub fn new(
        alloc: Global,
        links: Vec<MemLink>,
        failing: Vec<u64>,
    ) -> Result<MemDoor, OutOfMemory>
        ensures fresh { IfOk result (λ door. memory_gate door ≡ fresh_gate (map memory_wire links.items)) }
        ensures told { IfOk result (λ door. door.failing.numbers ≡ failing) }
        ensures none { IfOk result (λ door. door.failing.calls ≡ 0) }
    {
        let hung = Vec::with_capacity(alloc, links.len())?;
        Ok(MemDoor {
            links,
            hung,
            failing: Failing::new(failing),
            faults: 0,
            is_shut: false,
        })
    }

    /// How often it has failed.
    pub fn faults(&self) -> u64
        ensures { result ≡ (memory_gate self.now).faults }
    {
        self.faults
    }

    /// The links that were hung up, in order.
    pub fn hung(&self) -> &[MemLink]
        ensures { (memory_gate self.now).hung ≡ Some (map memory_wire result.now) }
    {
        self.hung.as_slice()
    }
}

impl Door for MemDoor {
    type Link = MemLink;

    ghost use Rattle.jb_host.specs.Failing.{IsFailingNext};
    ghost use Rattle.jb_host.specs.Memory.{memory_gate};

    ghost gate = { memory_gate };

    ghost fails_next = { λ door. IsFailingNext door.failing };

    fn accept(&mut self) -> Result<Accepted<MemLink>, DoorFailed> {
        if self.failing.fails() {
            self.faults = self.faults.saturating_add(1);
            return Err(DoorFailed);
        }
        if self.links.is_empty() {
            self.is_shut = true;
            return Ok(Accepted::Shut);
        }
        Ok(Accepted::Call(self.links.remove(0)))
    }

    fn hang_up(&mut self, link: MemLink) {
        if self.links.len() < self.hung.capacity() - self.hung.len() {
            let _ = self.hung.push(link);
        }
    }
}
