//! The bits of a message's Attribute field that this board reads or sets; all others are kept (JAM, "Attribute").

/// MSG_LOCAL: the message was written on this machine.
pub const LOCAL: u32 = 0x0000_0001;
/// MSG_PRIVATE: the message is for its sender and its receiver alone.
pub const PRIVATE: u32 = 0x0000_0004;
/// MSG_READ: the receiver has read the message.
pub const READ: u32 = 0x0000_0008;
/// MSG_TYPELOCAL: the message stays on this machine.
pub const TYPELOCAL: u32 = 0x0080_0000;
/// MSG_TYPEECHO: the message goes to all that carry the area.
pub const TYPEECHO: u32 = 0x0100_0000;
/// MSG_NODISP: the message is not to be shown to users.
pub const NODISP: u32 = 0x2000_0000;
/// MSG_DELETED: the message is killed.
pub const DELETED: u32 = 0x8000_0000;
