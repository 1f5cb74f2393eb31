//! Trusted: the clock of the system.
//!
//! It reads the system's wall clock, once a call. A contract knows that it tells no readings, and nothing of what it shows.
ghost use Rattle.std.specs.Prelude.{◌≡◌, ℕ, List, Option, None};

use crate::clock::Clock;
use std::time;
use std::time::{SystemTime, UNIX_EPOCH};

/// The clock of the system. Where that fails, or shows a moment that four bytes do not hold, it gives its last reading, at
/// first 0; a glance keeps none.
#[derive(Drop)]
pub struct SystemClock<R: time::Clock + Drop> {
    rt: R,
    last: u32,
}

impl<R: time::Clock + Drop> SystemClock<R> {
    /// The clock that this runtime reaches.
    pub fn new(rt: R) -> SystemClock<R>
        ensures { result.last ≡ 0 }
    {
        SystemClock { rt, last: 0 }
    }
}

impl<R: time::Clock + Drop> Clock for SystemClock<R> {
    ghost readings = { λ clock. None };

    fn now(&mut self) -> u32 {
        self.last = self.glance();
        self.last
    }

    fn glance(&self) -> u32 {
        if let Ok(time) = SystemTime::now(&self.rt) {
            if let Ok(since) = time.duration_since(UNIX_EPOCH) {
                return u32::try_from(since.as_secs()).unwrap_or(self.last);
            }
        }
        self.last
    }
}
