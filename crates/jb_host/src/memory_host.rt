//! A host in memory.
ghost use Rattle.std.specs.Prelude.{◌≡◌, ◌≢◌, ◌++◌, ◌∷◌, [], Some, None, IfNone, IfSome, OnErr, OnOk};
ghost use Rattle.jb_disk.specs.Device.{Device};
ghost use Rattle.jb_disk.specs.Memory.{memory_device};
ghost use Rattle.jb_host.specs.Desk.{has_bell, has_disk, has_door, with_behind, with_page_behind};

use crate::asking::{Asking, Call, disk_call, settings_call};
use crate::belfry::{Belfry, put_bell_in, take_bell};
use crate::clock::{MOST_READINGS, MemClock};
use crate::counting::count_failed;
use crate::entrances::Entrances;
use crate::host::{Host, HostError};
use crate::memory::MemLink;
use crate::memory_bell::MemBell;
use crate::memory_door::MemDoor;
use crate::page::{Page, copy_at};
use crate::shelf::{Shelf, put_on, shelf_at, take_from};
use arrayvec::ArrayVec;
use jb_bytes::{Bytes, OutOfMemory};
use jb_disk::MemDisk;
use std::alloc::Global;

/// A host with a console, disks, settings, doors, a bell and clocks in memory. It fails the calls for a disk, settings, a door or the
/// bell whose numbers, from 1, it was given, and those for a base, a file, a door or a bell that it does not have; it tells all that a
/// host may tell.
pub struct MemHost {
    alloc: Global,
    console: Option<MemLink>,
    readings: ArrayVec<u32, MOST_READINGS>,
    shelves: Vec<Shelf>,
    pages: Vec<Page>,
    entrances: Entrances,
    belfry: Belfry,
    asking: Asking,
    failed: u64,
}

// Whoever lets go of one does so in one call.
impl Drop for MemHost {
    fn drop(self) {
        let MemHost {
            alloc: _alloc,
            console: _console,
            readings: _readings,
            shelves: _shelves,
            pages: _pages,
            entrances: _entrances,
            belfry: _belfry,
            asking: _asking,
            failed: _failed,
        } = self;
    }
}

impl MemHost {
    ghost use Rattle.jb_host.specs.Entrances.{doors_in, waiting_in};
    ghost use Rattle.jb_host.specs.Shelves.{empty_desk, memory_desk, standing, written_in};
    ghost use Rattle.jb_host.specs.Memory.{memory_gate, memory_rings, memory_wire};

    /// A host with this console, no disk, no settings, no door and no bell, whose clocks each give these readings, and which fails the
    /// calls for a disk, settings, a door or the bell with these numbers.
    pub fn new(
        alloc: Global,
        console: MemLink,
        readings: ArrayVec<u32, MOST_READINGS>,
        failing: Vec<u64>,
    ) -> MemHost
        ensures fresh { memory_desk result ≡ empty_desk (memory_wire console) readings.items }
        ensures told { result.asking.failing.numbers ≡ failing }
        ensures none { result.asking.failing.calls ≡ 0 }
    {
        MemHost {
            alloc,
            console: Some(console),
            readings,
            shelves: Vec::new(alloc),
            pages: Vec::new(alloc),
            entrances: Entrances::new(alloc),
            belfry: Belfry::Empty,
            asking: Asking::new(alloc, failing),
            failed: 0,
        }
    }

    /// Adds the disk of a base, behind those that are there.
    pub fn add_disk(&mut self, dir: &str, name: &str, disk: MemDisk) -> Result<(), OutOfMemory>
        ensures ok { OnOk result (memory_desk self.new ≡ record (memory_desk self.old) {
          disks = Some (with_behind dir.now name.now (has_disk (memory_device disk)) (standing self.old));
        }) }
        ensures err { OnErr result (memory_desk self.new ≡ memory_desk self.old) }
        ensures kept { self.new.console ≡ self.old.console }
    {
        let shelf = Shelf {
            dir: Bytes::copy(self.alloc, dir.as_bytes())?,
            name: Bytes::copy(self.alloc, name.as_bytes())?,
            disk: Some(disk),
        };
        self.shelves.push(shelf)?;
        Ok(())
    }

    /// Adds a settings file, behind those that are there.
    pub fn add_settings(&mut self, path: &str, bytes: Bytes) -> Result<(), OutOfMemory>
        ensures ok { OnOk result (memory_desk self.new ≡ record (memory_desk self.old) {
          settings = Some (with_page_behind path.now bytes (written_in self.old));
        }) }
        ensures err { OnErr result (memory_desk self.new ≡ memory_desk self.old) }
        ensures kept { self.new.console ≡ self.old.console }
    {
        let path = Bytes::copy(self.alloc, path.as_bytes())?;
        self.pages.push(Page { path, bytes })?;
        Ok(())
    }

    /// Adds a door, behind those that wait to be handed out. It takes memory for it, as it comes back.
    pub fn add_door(&mut self, door: MemDoor) -> Result<(), OutOfMemory>
        ensures ok { OnOk result (memory_desk self.new ≡ record (memory_desk self.old) {
          waiting = Some (waiting_in self.old.entrances ++ memory_gate door ∷ []);
        }) }
        ensures err { OnErr result (memory_desk self.new ≡ memory_desk self.old) }
        ensures kept { self.new.console ≡ self.old.console }
    {
        self.entrances.add(door)
    }

    /// Adds the bell, in place of one that is there or was handed out.
    pub fn add_bell(&mut self, bell: MemBell)
        ensures added { memory_desk self.new
            ≡ record (memory_desk self.old) { bell = Some (has_bell (memory_rings bell)) } }
        ensures kept { self.new.console ≡ self.old.console }
    {
        self.belfry = Belfry::Holds(bell);
    }

    /// The console, while it is not out.
    pub fn console_link(&self) -> Option<&MemLink>
        ensures found { IfSome result (λ link. (memory_desk self.now).console ≡ Some (memory_wire link.now)) }
        ensures none { IfNone result ((memory_desk self.now).console ≡ None) }
    {
        self.console.as_ref()
    }

    /// The disk of a base, while it is not out.
    pub fn disk_at(&self, dir: &str, name: &str) -> Option<&MemDisk>
        ensures found { IfSome result (λ disk.
            standing self.now dir.now name.now ≡ has_disk (memory_device disk.now)) }
        ensures none { IfNone result ((device : Device)
            → standing self.now dir.now name.now ≢ has_disk device) }
    {
        let k = shelf_at(self.shelves.as_slice(), dir.as_bytes(), name.as_bytes())?;
        self.shelves[k].disk.as_ref()
    }

    /// The door of a node, once it is back.
    pub fn door_of(&self, node: u32) -> Option<&MemDoor>
        ensures { IfSome result (λ door. doors_in self.now.entrances node ≡ has_door (memory_gate door.now)) }
    {
        self.entrances.door_of(node)
    }
}

impl Host for MemHost {
    type Disk = MemDisk;

    type Link = MemLink;

    type Door = MemDoor;

    type Bell = MemBell;

    type Clock = MemClock;

    ghost use Rattle.jb_host.specs.Failing.{IsFailingNext};
    ghost use Rattle.jb_host.specs.Shelves.{memory_desk};

    ghost desk = { memory_desk };

    ghost fails_next = { λ host. IsFailingNext host.asking.failing };

    fn disk(&mut self, dir: &str, name: &str) -> Result<MemDisk, HostError> {
        let call = disk_call(self.alloc, dir, name)?;
        self.asking.begin(call)?;
        match take_from(&mut self.shelves, dir.as_bytes(), name.as_bytes()) {
            Some(disk) => Ok(disk),
            None => Err(self.asking.refuse()),
        }
    }

    fn put_back(&mut self, dir: &str, name: &str, disk: MemDisk) {
        count_failed(&mut self.failed, disk.faults());
        put_on(&mut self.shelves, dir.as_bytes(), name.as_bytes(), disk);
    }

    fn settings(&mut self, path: &str) -> Result<Bytes, HostError> {
        let call = settings_call(self.alloc, path)?;
        let found = copy_at(self.alloc, self.pages.as_slice(), path.as_bytes())?;
        self.asking.begin(call)?;
        match found {
            Some(bytes) => Ok(bytes),
            None => Err(self.asking.refuse()),
        }
    }

    fn console(&mut self) -> MemLink {
        self.console.take().unwrap()
    }

    fn put_console(&mut self, link: MemLink) {
        self.console = Some(link);
    }

    fn door(&mut self, node: u32, port: u16, calls: Option<u32>) -> Result<MemDoor, HostError> {
        self.asking.begin(Call::Door { node, port, calls })?;
        match self.entrances.hand_out(node) {
            Some(door) => Ok(door),
            None => Err(self.asking.refuse()),
        }
    }

    fn put_door(&mut self, node: u32, door: MemDoor) {
        count_failed(&mut self.failed, door.faults());
        self.entrances.take_back(node, door);
    }

    fn bell(&mut self, areas: u32, minutes: u32, calls: Option<u32>) -> Result<MemBell, HostError> {
        self.asking.begin(Call::Bell {
            areas,
            minutes,
            calls,
        })?;
        match take_bell(&mut self.belfry) {
            Some(bell) => Ok(bell),
            None => Err(self.asking.refuse()),
        }
    }

    fn put_bell(&mut self, bell: MemBell) {
        put_bell_in(&mut self.belfry, bell);
    }

    fn clock(&mut self) -> MemClock {
        let Ok(readings) = ArrayVec::try_from(self.readings.as_slice()) else {
            unreachable!()
        };
        MemClock::new(readings)
    }

    fn note(&mut self, _line: &str) {}
}
