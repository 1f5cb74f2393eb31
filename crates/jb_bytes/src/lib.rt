//! What every layer of the board speaks of, whatever the rules and the limits of an area are: byte strings, names, numbers in files
//! and subfields; and by its definitions the CRC of JAM, and the cause that a refusal of a device has.
//!
//! The layers above may rely on these: a [`Bytes`] is seen by contracts as a list of bytes, a [`Name`] likewise; numbers
//! in files are little-endian (JAM, "Data types"); want of memory is [`OutOfMemory`] and is merged with no other answer.
#![tactic(auto)]

mod bytes;
mod memory;
mod name;
mod number;
mod part;
mod subfield;

pub use bytes::Bytes;
pub use memory::OutOfMemory;
pub use name::Name;
pub use number::{get_u16, get_u32, put_u16, put_u32};
pub use part::{Part, first_part};
pub use subfield::{MSGID, RECEIVER_NAME, REPLYID, SENDER_NAME, SUBJECT, Subfield, Subfields};
