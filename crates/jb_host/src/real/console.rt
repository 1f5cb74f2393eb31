//! Trusted: the console of a process.
//!
//! It reads standard input and writes standard output, each by one call of the system a call. A contract knows its counts, and
//! no byte: not what came, not that what is called sent was.
ghost use Rattle.std.specs.Prelude.{◌≡◌};
ghost use Rattle.jb_host.specs.Real.{silent_wire};

use crate::answers::{read_of, write_of};
use crate::link::{Link, LinkFailed};
use std::io::Read;

/// Standard input and output as a link.
#[derive(Drop)]
pub struct ConsoleLink<R: Input + Print> {
    rt: R,
    reader: R::Reader,
    faults: u64,
    ends: u64,
    unsent: u64,
}

impl<R: Input + Print> ConsoleLink<R> {
    /// The console of this process.
    pub fn new(rt: R) -> ConsoleLink<R>
        ensures { silent_wire result.faults result.ends result.unsent ≡ silent_wire 0 0 0 }
    {
        let reader = rt.reader();
        ConsoleLink {
            rt,
            reader,
            faults: 0,
            ends: 0,
            unsent: 0,
        }
    }
}

impl<R: Input + Print> Link for ConsoleLink<R> {
    ghost wire = { λ link. silent_wire link.faults link.ends link.unsent };

    fn read(&mut self, into: &mut [u8]) -> Result<usize, LinkFailed> {
        let answer = self.reader.read(into);
        read_of(answer, into.len(), &mut self.faults, &mut self.ends)
    }

    fn write(&mut self, bytes: &[u8]) -> Result<usize, LinkFailed> {
        let answer = self.rt.write_some(bytes);
        write_of(answer, bytes.len(), &mut self.faults, &mut self.unsent)
    }
}
