//! The trusted edge: all of this crate that asks the system for anything stands in the files of this folder, and nothing else does.
//!
//! A contract knows of them what they count, what is left of them and what is shut, and no byte, caller, moment or file: they tell
//! none (`specs/Real.antt`). That what the system is asked does what it is asked for is not proved, but trusted.

mod bell;
mod clock;
mod console;
mod door;
mod files;
mod host;
mod port;
mod synch;
mod tcp;

pub use bell::TimedBell;
pub use clock::SystemClock;
pub use console::ConsoleLink;
pub use door::TcpDoor;
pub use files::MOST_SETTINGS_BYTES;
pub use host::RealHost;
pub use tcp::{
    MOST_FIRST_LINE_SECONDS, MOST_LOGIN_SECONDS, MOST_SILENT_READER_SECONDS, MOST_SILENT_SECONDS,
    MOST_STUCK_SECONDS, TcpLink,
};
