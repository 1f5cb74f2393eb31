//! The doors of a host in memory.
ghost use Rattle.std.specs.Prelude.{◌≡◌, ◌+◌, ◌≤◌, ℕ, [], ◌∷◌, ◌++◌, IfNone, IfSome, OnErr, OnOk, vec_len, vec_capacity};

use crate::handed_out::{HandedOut, entry_of, put_at};
use crate::memory_door::MemDoor;
use jb_bytes::OutOfMemory;
use std::alloc::Global;

/// The doors that wait to be handed out, in order, and those that were, the last one first. It keeps a place for each that waits.
pub struct Entrances {
    waiting: Vec<MemDoor>,
    handed: Vec<HandedOut>,
    ghost roomy: { vec_len waiting + vec_len handed ≤ vec_capacity handed },
}

// Whoever lets go of one does so in one call.
impl Drop for Entrances {
    fn drop(self) {
        let Entrances {
            waiting: _waiting,
            handed: _handed,
        } = self;
    }
}

impl Entrances {
    ghost use Rattle.jb_host.specs.Desk.{door_out, has_door, with_door};
    ghost use Rattle.jb_host.specs.Entrances.{by_node, doors_in, waiting_in};
    ghost use Rattle.jb_host.specs.Memory.{memory_gate};

    /// No doors.
    pub(crate) fn new(alloc: Global) -> Entrances
        ensures waiting { waiting_in result ≡ [] }
        ensures doors { doors_in result ≡ by_node [] }
    {
        Entrances {
            waiting: Vec::new(alloc),
            handed: Vec::new(alloc),
        }
    }

    /// Adds a door behind those that wait.
    pub(crate) fn add(&mut self, door: MemDoor) -> Result<(), OutOfMemory>
        ensures ok { OnOk result (waiting_in self.new ≡ waiting_in self.old ++ memory_gate door ∷ []) }
        ensures err { OnErr result (waiting_in self.new ≡ waiting_in self.old) }
        ensures doors { doors_in self.new ≡ doors_in self.old }
    {
        self.handed.reserve(self.waiting.len().saturating_add(1))?;
        self.waiting.push(door)?;
        Ok(())
    }

    /// Hands the first door that waits out to a node.
    pub(crate) fn hand_out(&mut self, node: u32) -> Option<MemDoor>
        ensures first { IfSome result (λ door. waiting_in self.old ≡ memory_gate door ∷ waiting_in self.new) }
        ensures out { IfSome result (λ _. doors_in self.new ≡ with_door node door_out (doors_in self.old)) }
        ensures none { IfNone result (self.new ≡ self.old) }
    {
        if self.waiting.is_empty() {
            return None;
        }
        let door = self.waiting.remove(0);
        let _ = self.handed.insert(0, HandedOut { node, door: None });
        Some(door)
    }

    /// Takes the door of a node back, where one was handed out to it.
    pub(crate) fn take_back(&mut self, node: u32, door: MemDoor)
        ensures back { doors_in self.old node ≡ door_out
            → doors_in self.new ≡ with_door node (has_door (memory_gate door)) (doors_in self.old) }
        ensures waiting { waiting_in self.new ≡ waiting_in self.old }
    {
        put_at(&mut self.handed, node, door);
    }

    /// The door of a node that is back.
    pub(crate) fn door_of(&self, node: u32) -> Option<&MemDoor>
        ensures found { IfSome result (λ door. doors_in self.now node ≡ has_door (memory_gate door.now)) }
    {
        let k = entry_of(self.handed.as_slice(), node)?;
        self.handed[k].door.as_ref()
    }
}
