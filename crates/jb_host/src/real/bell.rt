//! Trusted: the bell of a process.
//!
//! It lets its thread sleep between two rings, and writes on the error output what an operator is told. A contract knows how many rings
//! are left, whether it is shut, and for which areas it rings where its rings have an end; and not the time.
ghost use Rattle.std.specs.Prelude.{◌≡◌};
ghost use Rattle.jb_host.specs.Real.{first_rings, timed_rings};

use crate::bell::{Bell, Ring};
use crate::rounds::{area_behind, left_behind, rings_of};
use std::time::Duration;
use std::{thread, time};

/// A bell that rings for one area after another, from 1 on and from the last to the first again, each time after so many minutes.
/// Where a number of calls is given, it rings for each area once, at once, and is then shut. With 0 minutes or no areas it is shut.
#[derive(Drop)]
pub struct TimedBell<R: Eprint + time::Clock + Drop> {
    rt: R,
    areas: u32,
    minutes: u32,
    last: u32,
    left: Option<u32>,
    is_shut: bool,
}

impl<R: Eprint + time::Clock + Drop> TimedBell<R> {
    /// A bell over so many areas.
    pub fn new(rt: R, areas: u32, minutes: u32, calls: Option<u32>) -> TimedBell<R>
        ensures areas { result.areas ≡ areas }
        ensures fresh { timed_rings areas result.last result.is_shut result.left ≡ first_rings areas minutes calls }
    {
        TimedBell {
            rt,
            areas,
            minutes,
            last: 0,
            left: rings_of(areas, minutes, calls),
            is_shut: false,
        }
    }
}

impl<R: Eprint + time::Clock + Drop> Bell for TimedBell<R> {
    ghost rings = { λ bell. timed_rings bell.areas bell.last bell.is_shut bell.left };

    #[tactic(auto, using(crate::proofs::Ringing::rings_next))]
    fn next(&mut self) -> Ring {
        let Some(left) = left_behind(self.left) else {
            self.is_shut = true;
            return Ring::Shut;
        };
        if left.is_none() {
            thread::sleep(&self.rt, Duration::from_secs(u64::from(self.minutes) * 60));
        }
        self.left = left;
        self.last = area_behind(self.last, self.areas);
        Ring::Pack(self.last)
    }

    fn note(&mut self, line: &str) {
        let _ = self.rt.eprintln(line);
    }
}
