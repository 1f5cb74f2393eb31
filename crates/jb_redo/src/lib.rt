//! The record that the journal keeps of a change: new lengths of the files of a base, and pieces that are written into them.
//!
//! The layer above may rely on this: [`test_record`] answers whether .JNL holds a record of the journal's version from byte
//! 16 on, with what its head says, else with the place of the first field that is cut off or breaks a rule. [`apply_record`]
//! does what the record says; stopped at any call it leaves files that hold the record still and replay to the same. Neither
//! takes memory, syncs, or looks at the gate.
#![tactic(auto)]

mod applying;
mod decode;
mod error;
mod field;
mod head;
mod layout;
mod lengths;
mod part;
mod piece;
mod sizes;
mod testing;

pub use applying::apply_record;
pub use error::RecordError;
pub use head::RecordHead;
pub use testing::test_record;
