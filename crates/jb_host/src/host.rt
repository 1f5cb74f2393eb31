//! The trait of a host.
ghost use Rattle.std.specs.Prelude.{◌≡◌, ℕ, Option, Some, None, IsErr, IsSome, IfOk, IfErr};
ghost use Rattle.jb_disk.specs.Device.{Device};
ghost use Rattle.jb_host.specs.declared.host.HostError.TheVariants.{OutOfMemory as no_memory};
ghost use Rattle.jb_host.specs.Desk.{Desk, GivesBell, GivesDisk, GivesDoor, GivesSettings, RefusesCall, TakesBack, TakesBell, TakesDoor};
ghost use Rattle.jb_host.specs.Gate.{Gate};
ghost use Rattle.jb_host.specs.Rings.{Rings};
ghost use Rattle.jb_host.specs.Desk.{asked_bell, asked_disk, asked_door, asked_settings};

use crate::{Bell, Clock, Door, Link};
use jb_bytes::{Bytes, OutOfMemory};
use jb_disk::Disk;

/// Why a host did not do it. Its disks, its settings, its doors, its bell and its console are as before.
#[derive(Clone, Copy, Debug, PartialEq, Eq)]
pub enum HostError {
    /// The host has no such thing, or its surroundings refused; its count of faults rose.
    Failed,
    /// The allocator gave no memory.
    OutOfMemory,
}

impl From<OutOfMemory> for HostError {
    ghost from_gives = { λ _ error. error ≡ no_memory };

    fn from(_: OutOfMemory) -> HostError {
        HostError::OutOfMemory
    }
}

/// The surroundings of a program: disks by folder and name, settings by path, one console, doors, a bell, and clocks.
pub trait Host {
    type Disk: Disk + Drop;

    type Link: Link;

    type Door: Door + Drop;

    type Bell: Bell + Drop;

    type Clock: Clock + Drop;

    /// Its count of faults, that of what it took back and had failed, its console while that is not out, and where it tells them its
    /// calls, its disks, its settings, its doors, its bell and the readings that its clocks give.
    ghost desk: { Self → Desk };

    /// The call for a disk, settings, a door or the bell that comes next is one that it was told to fail, as a host in memory is for a
    /// test.
    ghost fails_next: { Self → Type 0 } = { λ _. ⊥ };

    /// What a door for so many calls is as it is handed out, where the host makes it for them. One in memory was given its doors.
    ghost door_for: { Option ℕ → Gate → Type 0 } = { λ _ _. Unit };

    /// What a bell over so many areas, after so many minutes or where calls are counted, is as it is handed out.
    ghost bell_over: { ℕ → ℕ → Option ℕ → Rings → Type 0 } = { λ _ _ _ _. Unit };

    /// The disk of the base with this name in this folder.
    fn disk(&mut self, dir: &str, name: &str) -> Result<Self::Disk, HostError>
        ensures ok { IfOk result (λ disk.
            GivesDisk dir.now name.now (Self.Disk.device disk) (desk self.old) (desk self.new)) }
        ensures err { IfErr result (λ error.
            RefusesCall (asked_disk dir.now name.now) error (desk self.old) (desk self.new)) }
        ensures listed { fails_next self.old → IsErr result };

    /// Takes a disk back that was handed out for this folder and name.
    fn put_back(&mut self, dir: &str, name: &str, disk: Self::Disk)
        ensures { TakesBack dir.now name.now (Self.Disk.device disk) (desk self.old) (desk self.new) };

    /// The bytes of the settings file at this path, which stays there.
    fn settings(&mut self, path: &str) -> Result<Bytes, HostError>
        ensures ok { IfOk result (λ bytes. GivesSettings path.now bytes (desk self.old) (desk self.new)) }
        ensures err { IfErr result (λ error.
            RefusesCall (asked_settings path.now) error (desk self.old) (desk self.new)) }
        ensures listed { fails_next self.old → IsErr result };

    /// Hands the console out.
    fn console(&mut self) -> Self::Link
        requires { IsSome (desk self.old).console }
        ensures was { (desk self.old).console ≡ Some (Self.Link.wire result) }
        ensures out { desk self.new ≡ record (desk self.old) { console = None } };

    /// Takes the console back.
    fn put_console(&mut self, link: Self::Link)
        ensures { desk self.new ≡ record (desk self.old) { console = Some (Self.Link.wire link) } };

    /// A door for a node, at a port, which is shut after so many calls, or never. It is open from then on, also to callers that come
    /// before it is asked for them.
    fn door(&mut self, node: u32, port: u16, calls: Option<u32>) -> Result<Self::Door, HostError>
        ensures ok { IfOk result (λ door.
            GivesDoor node port calls (Self.Door.gate door) (desk self.old) (desk self.new)) }
        ensures counts { IfOk result (λ door. door_for calls (Self.Door.gate door)) }
        ensures err { IfErr result (λ error.
            RefusesCall (asked_door node port calls) error (desk self.old) (desk self.new)) }
        ensures listed { fails_next self.old → IsErr result };

    /// Takes a door back that was handed out for this node.
    fn put_door(&mut self, node: u32, door: Self::Door)
        ensures { TakesDoor node (Self.Door.gate door) (desk self.old) (desk self.new) };

    /// The bell over so many areas: one after another, each after so many minutes; or each once, at once, where calls are counted.
    fn bell(
        &mut self,
        areas: u32,
        minutes: u32,
        calls: Option<u32>,
    ) -> Result<Self::Bell, HostError>
        ensures ok { IfOk result (λ bell.
            GivesBell areas minutes calls (Self.Bell.rings bell) (desk self.old) (desk self.new)) }
        ensures rounds { IfOk result (λ bell. bell_over areas minutes calls (Self.Bell.rings bell)) }
        ensures err { IfErr result (λ error.
            RefusesCall (asked_bell areas minutes calls) error (desk self.old) (desk self.new)) }
        ensures listed { fails_next self.old → IsErr result };

    /// Takes the bell back.
    fn put_bell(&mut self, bell: Self::Bell)
        ensures { TakesBell (Self.Bell.rings bell) (desk self.old) (desk self.new) };

    /// A clock, which begins with the first of the readings.
    fn clock(&mut self) -> Self::Clock
        ensures gives { Self.Clock.readings result ≡ (desk self.old).readings }
        ensures same { desk self.new ≡ desk self.old };

    /// Tells the operator a line, where there is a way to. It may be lost, and nothing rests on it.
    fn note(&mut self, line: &str)
        ensures { desk self.new ≡ desk self.old };
}
