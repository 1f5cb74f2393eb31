//! What the files of a JAM base stand for, and the reading of them (JAM, "Header file" to "Lastread file").
//!
//! The layer above may rely on this: [`decode`] answers with the area for which the files stand, without its texts, or
//! with the first test that they fail, its number and its place ([`OpenError`]). It asks for four lengths, and looks at
//! .JHR, .JDX and .JLR through windows of 65,536 bytes, each a device read; no text is read. Where the headers stand in the
//! order of the index each part of .JHR is read once, one read a window. Where they do not it begins again, with the whole
//! of .JHR in one read, and looks at each header and then at each live message's subfields. Beside what it gives it holds
//! a window of each file, which a header with longer subfields makes as long as these, and where headers do not rise
//! .JHR and the fields of one header a slot, until it answers; it keeps subfields of several messages only while or once
//! their headers lie apart. It reads the files as they are: the layer above first does the change that waits in the journal.
//!
//! Each record of a base is made here ([`write_message`], [`message_bytes`], [`entry_bytes`], [`mark_bytes`], [`fixed_of`]) for all
//! that write one: read again, it gives what it was made of.
#![tactic(auto)]

mod error;
mod extent;
mod fixed;
mod header;
mod index;
mod lengths;
mod loading;
mod marks;
mod message;
mod opening;
mod overlap;
mod overlapping;
mod place;
mod records;
mod rising;
mod seen;
mod window;

pub use error::OpenError;
pub use opening::decode;
pub use records::{entry_bytes, fixed_of, mark_bytes, message_bytes, write_message};
