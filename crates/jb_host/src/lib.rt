//! What a program is given by its surroundings: links that carry bytes, doors that give links, a bell that says when to pack, clocks,
//! and a host that hands out a console, settings, disks, doors, a bell and clocks.
//!
//! The layers above are generic over [`Link`], [`Door`], [`Bell`], [`Clock`] and [`Host`] and are proved once. [`MemLink`],
//! [`MemDoor`], [`MemBell`], [`MemClock`] and [`MemHost`] tell all that there is to tell. Clauses on bytes, links, areas, readings,
//! calls, settings, disks, doors and the bell hold where they are told, clauses on faults always.
//!
//! The real ones stand in `real.rt` and its folder, and are trusted. Nothing outside of these files asks the system for anything.
#![tactic(auto)]

mod answers;
mod asking;
mod belfry;
mod bell;
mod clock;
mod counting;
mod door;
mod entrances;
mod failing;
mod handed_out;
mod host;
mod link;
mod memory;
mod memory_bell;
mod memory_door;
mod memory_host;
mod page;
mod real;
mod refusals;
mod rounds;
mod sending;
mod shelf;
mod telnet;

pub use bell::{Bell, Ring};
pub use clock::{Clock, MOST_READINGS, MemClock};
pub use door::{Accepted, Door, DoorFailed};
pub use host::{Host, HostError};
pub use link::{Learned, Link, LinkFailed};
pub use memory::MemLink;
pub use memory_bell::MemBell;
pub use memory_door::MemDoor;
pub use memory_host::MemHost;
pub use real::{
    ConsoleLink, MOST_FIRST_LINE_SECONDS, MOST_LOGIN_SECONDS, MOST_SETTINGS_BYTES,
    MOST_SILENT_READER_SECONDS, MOST_SILENT_SECONDS, MOST_STUCK_SECONDS, RealHost, SystemClock,
    TcpDoor, TcpLink, TimedBell,
};
pub use sending::send;
