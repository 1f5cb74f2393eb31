//! An area as it is kept in memory, and a change done in it.
//!
//! The layer above may rely on this. A [`Held`] is an area as it is loaded; the count and the indexes that it has beside that are
//! its own affair. [`Held::apply`] makes of the area the one after a change that was decided ([`Pending`]), without memory.
#![tactic(auto)]

mod applying;
mod held;
mod indexes;
mod pending;

pub use held::HeldArea;
pub use pending::{Pending, Room};
