//! From the bytes of a Telnet connection to events, one byte at a time, and back (RFC 854, RFC 855).
//!
//! The layer above may rely on this: the events that a `Decoder` has given are those of all the bytes that it has
//! taken, however these arrived, and `encode` spells any bytes so that a peer reads just them.
#![tactic(auto)]

mod codes;
mod decoder;
mod encoder;
mod event;
mod laws;
mod verb;

pub use codes::{AYT, DO, DONT, EC, EL, IAC, SB, SE, WILL, WONT};
pub use decoder::Decoder;
pub use encoder::encode;
pub use event::Event;
pub use laws::bytes_are_cut_one_way;
pub use verb::Verb;
