//! Trusted: the host of a process.
//!
//! It hands out what the other files of this folder make, and writes on the error output what the system refused and what an operator
//! is told. A contract knows its count of failures and its console while that is not out, and no disk, settings, door, bell or call.
ghost use Rattle.std.specs.Prelude.{◌≡◌, IsSome, Some, false};
ghost use Rattle.std.specs.Option.{option_map};
ghost use Rattle.jb_host.specs.Real.{first_rings, silent_desk, silent_gate, silent_wire};

use crate::counting::count_failed;
use crate::host::{Host, HostError};
use crate::real::bell::TimedBell;
use crate::real::clock::SystemClock;
use crate::real::console::ConsoleLink;
use crate::real::door::TcpDoor;
use crate::real::files::{opened, read_whole};
use crate::real::port::{Port, listener_at};
use crate::refusals::{BaseRefused, PortRefused, SettingsRefused, counted};
use jb_bytes::Bytes;
use jb_files::{FolderDisk, OpenFault};
use std::alloc::Global;
use std::fs::File;
use std::net::{Net, TcpListener, TcpStream};
use std::rt::Files;
use std::time;

/// The host of a process: bases in folders and settings in files of its file system, its standard input and output, and its ports.
#[derive(Drop)]
pub struct RealHost<
    R: Files<File = File>
        + Input
        + Print
        + Eprint
        + time::Clock
        + Net<Listener = TcpListener, Stream = TcpStream>
        + Copy
        + Drop,
> {
    rt: R,
    alloc: Global,
    console: Option<ConsoleLink<R>>,
    ports: Vec<Port>,
    disks_out: u32,
    faults: u64,
    failed: u64,
}

impl<
    R: Files<File = File>
        + Input
        + Print
        + Eprint
        + time::Clock
        + Net<Listener = TcpListener, Stream = TcpStream>
        + Copy
        + Drop,
> RealHost<R> {
    /// The surroundings that this runtime reaches.
    pub fn new(rt: R, console: R, alloc: Global) -> RealHost<R>
        ensures console { IsSome result.console }
        ensures fresh { silent_desk result.faults result.failed (option_map (λ link.
            silent_wire link.faults link.ends link.unsent) result.console)
            ≡ silent_desk 0 0 (Some (silent_wire 0 0 0)) }
    {
        RealHost {
            rt,
            alloc,
            console: Some(ConsoleLink::new(console)),
            ports: Vec::new(alloc),
            disks_out: 0,
            faults: 0,
            failed: 0,
        }
    }
}

impl<
    R: Files<File = File>
        + Input
        + Print
        + Eprint
        + time::Clock
        + Net<Listener = TcpListener, Stream = TcpStream>
        + Copy
        + Drop,
> Host for RealHost<R> {
    type Disk = FolderDisk<R>;

    type Link = ConsoleLink<R>;

    type Door = TcpDoor<R>;

    type Bell = TimedBell<R>;

    type Clock = SystemClock<R>;

    ghost desk = { λ host. silent_desk host.faults host.failed (option_map (λ link. silent_wire link.faults link.ends link.unsent) host.console) };

    ghost door_for = { λ calls gate. gate ≡ silent_gate 0 false calls };

    ghost bell_over = { λ areas minutes calls rings. rings ≡ first_rings areas minutes calls };

    fn disk(&mut self, dir: &str, name: &str) -> Result<FolderDisk<R>, HostError> {
        let has_others = self.disks_out > 0;
        match opened(self.rt, self.alloc, dir, name, has_others) {
            Ok(disk) => {
                self.disks_out = self.disks_out.saturating_add(1);
                Ok(disk)
            }
            Err(OpenFault::OutOfMemory) => Err(HostError::OutOfMemory),
            Err(fault) => {
                let refused = BaseRefused {
                    dir,
                    name,
                    fault,
                    has_others,
                };
                let _ = self.rt.eprintln(refused);
                self.faults = self.faults.saturating_add(1);
                Err(HostError::Failed)
            }
        }
    }

    fn put_back(&mut self, _dir: &str, _name: &str, disk: FolderDisk<R>) {
        self.disks_out = self.disks_out.saturating_sub(1);
        count_failed(&mut self.failed, disk.faults());
    }

    fn settings(&mut self, path: &str) -> Result<Bytes, HostError> {
        match read_whole(&self.rt, self.alloc, path) {
            Ok(bytes) => Ok(bytes),
            Err(error) => {
                let refusal = counted(&mut self.faults, &error);
                if refusal == HostError::Failed {
                    let _ = self.rt.eprintln(SettingsRefused { path, error });
                }
                Err(refusal)
            }
        }
    }

    fn console(&mut self) -> ConsoleLink<R> {
        self.console.take().unwrap()
    }

    fn put_console(&mut self, link: ConsoleLink<R>) {
        self.console = Some(link);
    }

    fn door(&mut self, node: u32, port: u16, calls: Option<u32>) -> Result<TcpDoor<R>, HostError> {
        match listener_at(&self.rt, &mut self.ports, port) {
            Ok(listener) => Ok(TcpDoor::new(self.rt, node, listener, calls)),
            Err(error) => {
                let refusal = counted(&mut self.faults, &error);
                if refusal == HostError::Failed {
                    let _ = self.rt.eprintln(PortRefused { port, error });
                }
                Err(refusal)
            }
        }
    }

    fn put_door(&mut self, _node: u32, door: TcpDoor<R>) {
        count_failed(&mut self.failed, door.faults());
    }

    fn bell(
        &mut self,
        areas: u32,
        minutes: u32,
        calls: Option<u32>,
    ) -> Result<TimedBell<R>, HostError> {
        Ok(TimedBell::new(self.rt, areas, minutes, calls))
    }

    fn put_bell(&mut self, _bell: TimedBell<R>) {}

    fn clock(&mut self) -> SystemClock<R> {
        SystemClock::new(self.rt)
    }

    fn note(&mut self, line: &str) {
        let _ = self.rt.eprintln(line);
    }
}
