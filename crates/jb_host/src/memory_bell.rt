//! A bell in memory.
ghost use Rattle.std.specs.Prelude.{◌≡◌};

use crate::bell::{Bell, Ring};

/// A bell that rings for its areas in order, at once, and is then shut.
#[derive(Drop)]
pub struct MemBell {
    areas: Vec<u32>,
    is_shut: bool,
}

impl MemBell {
    ghost use Rattle.jb_host.specs.Memory.{fresh_rings, memory_rings};

    /// A bell that will ring for these areas.
    pub fn new(areas: Vec<u32>) -> MemBell
        ensures { memory_rings result ≡ fresh_rings areas.items }
    {
        MemBell {
            areas,
            is_shut: false,
        }
    }
}

impl Bell for MemBell {
    ghost use Rattle.jb_host.specs.Memory.{memory_rings};

    ghost rings = { memory_rings };

    fn next(&mut self) -> Ring {
        if self.areas.is_empty() {
            self.is_shut = true;
            return Ring::Shut;
        }
        Ring::Pack(self.areas.remove(0))
    }
}
