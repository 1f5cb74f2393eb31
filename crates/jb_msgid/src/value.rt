//! What the text of a MSGID says.

use jb_bytes::Bytes;

/// The address of the system at which a message was written, of one byte or more, and the serial number that the system
/// gave it.
#[derive(Drop)]
pub struct MsgId {
    pub address: Bytes,
    pub serial: u32,
}
