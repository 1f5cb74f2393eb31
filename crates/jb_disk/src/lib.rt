//! The six files of an area as a device: what a read gives, and what a crash may leave.
//!
//! The layers above are generic over [`Disk`] and are proved once. A disk may tell what its files hold and what a crash at
//! each moment may leave ([`MemDisk`] does), or tell nothing, as one over real files must; every clause on contents and
//! crashes holds where the disk tells, every clause on faults always.
#![tactic(auto)]

mod call;
mod disk;
mod file;
mod memory;
mod piece;
mod redo;
mod silent;
mod six;
mod steady;
mod trace;
mod version;

pub use call::Call;
pub use disk::{Disk, DiskFailed};
pub use file::FileId;
pub use memory::MemDisk;
pub use piece::{Length, Piece, PieceHead};
pub use redo::Redo;
pub use silent::{SilentDisk, counted};
pub use steady::SteadyDisk;
pub use version::Version;
