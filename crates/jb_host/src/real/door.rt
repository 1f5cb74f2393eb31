//! Trusted: the door at a port.
//!
//! It takes callers at a socket that listens, and pauses where the system gives none. A contract knows its count of failures, how many
//! calls are left and whether it is shut, and no caller.
ghost use Rattle.std.specs.Prelude.{◌≡◌, false};
ghost use Rattle.jb_host.specs.Real.{silent_gate};

use crate::door::{Accepted, Door, DoorFailed};
use crate::real::tcp::{TRIES, TcpLink};
use std::io::ErrorKind;
use std::net::TcpListener;
use std::time::Duration;
use std::{thread, time};

/// How often a door that has found no caller is opened again, and the pause before.
const PAUSES: u32 = 6_000;

const PAUSE_MILLISECONDS: u64 = 100;

/// Where callers come in over TCP. It is shut after its number of calls, where it was given one. A caller for whom the system has no
/// file or no memory left is asked for again every tenth of a second; the door fails once that has gone on for ten minutes.
#[derive(Drop)]
pub struct TcpDoor<R: Eprint + time::Clock + Copy + Drop> {
    rt: R,
    node: u32,
    listener: TcpListener,
    left: Option<u32>,
    faults: u64,
    is_shut: bool,
}

impl<R: Eprint + time::Clock + Copy + Drop> TcpDoor<R> {
    /// A door of this node at this port, for so many calls, or as many as come.
    pub fn new(rt: R, node: u32, listener: TcpListener, calls: Option<u32>) -> TcpDoor<R>
        ensures { silent_gate result.faults result.is_shut result.left ≡ silent_gate 0 false calls }
    {
        TcpDoor {
            rt,
            node,
            listener,
            left: calls,
            faults: 0,
            is_shut: false,
        }
    }

    /// How often it has failed.
    pub fn faults(&self) -> u64
        ensures { result ≡ self.now.faults }
    {
        self.faults
    }
}

/// The next caller, where one comes without a fault of the system; one that has gone before it was let in is passed over.
fn caller_at<R: Eprint + time::Clock + Copy + Drop>(
    rt: R,
    node: u32,
    listener: &TcpListener,
) -> Option<TcpLink<R>> {
    for _ in 0..TRIES {
        match listener.accept() {
            Ok((stream, peer)) => {
                if let Ok(link) = TcpLink::new(rt, node, stream, peer) {
                    return Some(link);
                }
            }
            Err(error) => {
                if !matches!(
                    error.kind(),
                    ErrorKind::Interrupted | ErrorKind::ConnectionAborted
                ) {
                    return None;
                }
            }
        }
    }
    None
}

/// The next caller, waited for until one comes or the door has no patience left.
fn next_caller<R: Eprint + time::Clock + Copy + Drop>(
    rt: R,
    node: u32,
    listener: &TcpListener,
) -> Option<TcpLink<R>> {
    for _ in 0..PAUSES {
        if let Some(link) = caller_at(rt, node, listener) {
            return Some(link);
        }
        thread::sleep(&rt, Duration::from_millis(PAUSE_MILLISECONDS));
    }
    None
}

impl<R: Eprint + time::Clock + Copy + Drop> Door for TcpDoor<R> {
    type Link = TcpLink<R>;

    ghost gate = { λ door. silent_gate door.faults door.is_shut door.left };

    fn accept(&mut self) -> Result<Accepted<TcpLink<R>>, DoorFailed> {
        let left = match self.left {
            Some(0) => {
                self.is_shut = true;
                return Ok(Accepted::Shut);
            }
            Some(left) => Some(left - 1),
            None => None,
        };
        if let Some(link) = next_caller(self.rt, self.node, &self.listener) {
            self.left = left;
            return Ok(Accepted::Call(link));
        }
        self.faults = self.faults.saturating_add(1);
        Err(DoorFailed)
    }

    fn hang_up(&mut self, link: TcpLink<R>) {
        link.close();
    }

    fn port(&self) -> Option<u16> {
        match self.listener.local_addr() {
            Ok(address) => Some(address.port()),
            Err(_) => None,
        }
    }
}
