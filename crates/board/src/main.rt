//! The program `board`: the tools of an operator of JAM message bases, a session at the console, and many at a port.
//!
//! `main` makes the real host and hands it to [`jb_board::board`], with the words. That is the whole program over
//! any host: its contract says, for every list of words, what is asked of the host, what is printed, and with which status the
//! program ends.
#![tactic(auto)]

ghost use Rattle.std.specs.Prelude.{IsSome};
ghost use Rattle.std.specs.Option.{option_map};
ghost use Rattle.jb_host.specs.Real.{silent_wire};

use jb_board::{Fault, board};
use jb_host::RealHost;
use std::process::ExitCode;
use std::{env, io};

/// The words after the program's name.
fn words(rt: &HostRuntime) -> io::Result<Vec<String>> {
    let mut words = Vec::new(rt.alloc());
    for word in env::args(rt)?.skip(1) {
        words.push(word)?;
    }
    Ok(words)
}

/// The surroundings of this process, with its console.
fn surroundings(rt: &HostRuntime) -> RealHost<HostRuntime>
    ensures { IsSome (option_map (λ link. silent_wire link.faults link.ends link.unsent) result.console) }
{
    RealHost::new(*rt, *rt, rt.alloc())
}

fn main(rt: HostRuntime) -> ExitCode {
    let alloc = rt.alloc();
    let mut host = surroundings(&rt);
    match words(&rt) {
        Ok(words) => ExitCode::from(board(&rt, alloc, words.as_slice(), &mut host)),
        // Words that are no UTF-8 are no command line.
        Err(error) if error.kind() == io::ErrorKind::InvalidData => {
            ExitCode::from(board(&rt, alloc, &[], &mut host))
        }
        Err(_) => without_memory(&rt),
    }
}

/// The end of a run that has no memory for its words.
fn without_memory(rt: &HostRuntime) -> ExitCode {
    let fault = Fault::OutOfMemory;
    let line = fault.line();
    let _ = rt.print(line.as_str());
    ExitCode::from(fault.status())
}
