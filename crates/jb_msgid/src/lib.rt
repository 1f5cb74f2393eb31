//! The text of a MSGID, read and written: an address, a space and a serial number of eight digits of base 16 (FTS-0009,
//! "MSGID"). The name of the kludge is not part of it.
//!
//! The layer above may rely on this: [`parse`] gives the value of a text of the grammar, else the one error that names the
//! place; [`print`] writes the one usual text of a value, which is read back as that value.
#![tactic(auto)]

mod address;
mod error;
mod reading;
mod serial;
mod value;
mod writing;

pub use error::MsgIdError;
pub use reading::parse;
pub use value::MsgId;
pub use writing::print;
