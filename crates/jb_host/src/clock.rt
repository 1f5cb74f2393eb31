//! The trait of a clock, and one in memory.
ghost use Rattle.std.specs.Prelude.{◌≡◌, ℕ, List, Option, Some};
ghost use Rattle.std.specs.Option.{ForSome, option_map};
ghost use Rattle.jb_host.specs.Readings.{reading_of, readings_after};

use arrayvec::ArrayVec;

/// What gives the moment.
pub trait Clock {
    /// The readings that it will give, of which the last stays, where it tells them.
    ghost readings: { Self → Option (List ℕ) };

    /// The seconds since 1970 that it shows. It moves on to its next reading.
    fn now(&mut self) -> u32
        ensures told { ForSome (readings self.old) (λ all. result ≡ reading_of all) }
        ensures moves { readings self.new ≡ option_map readings_after (readings self.old) };

    /// What it shows, and it does not move on: for the lines that an operator is told. No contract knows what that is, so it is no moment
    /// of a command.
    fn glance(&self) -> u32;
}

/// So many readings a clock in memory has at most.
pub const MOST_READINGS: usize = 16;

/// A clock in memory, which gives its readings in order, and its last again and again; 0 where it has none.
#[derive(Drop)]
pub struct MemClock {
    readings: ArrayVec<u32, MOST_READINGS>,
}

impl MemClock {
    /// A clock with these readings.
    pub fn new(readings: ArrayVec<u32, MOST_READINGS>) -> MemClock
        ensures { result.readings ≡ readings }
    {
        MemClock { readings }
    }

    /// What it shows.
    fn shows(&self) -> u32
        ensures { result ≡ reading_of self.now.readings.items }
    {
        match self.readings.as_slice().first() {
            Some(reading) => *reading,
            None => 0,
        }
    }
}

impl Clock for MemClock {
    ghost readings = { λ clock. Some clock.readings.items };

    fn now(&mut self) -> u32 {
        let reading = self.shows();
        if self.readings.len() > 1 {
            let _ = self.readings.remove(0);
        }
        reading
    }

    fn glance(&self) -> u32 {
        self.shows()
    }
}
