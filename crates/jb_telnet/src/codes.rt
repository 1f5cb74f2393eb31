//! The command bytes of RFC 854, "TELNET command structure", by their names there.

/// The end of a subnegotiation.
pub const SE: u8 = 240;

/// "Are you there?"
pub const AYT: u8 = 246;

/// Erase the last character.
pub const EC: u8 = 247;

/// Erase the line.
pub const EL: u8 = 248;

/// The beginning of a subnegotiation.
pub const SB: u8 = 250;

/// The sender performs an option, or offers to.
pub const WILL: u8 = 251;

/// The sender does not perform an option.
pub const WONT: u8 = 252;

/// The receiver is to perform an option.
pub const DO: u8 = 253;

/// The receiver is not to perform an option.
pub const DONT: u8 = 254;

/// Interpret the next byte as a command. Doubled, it is the byte 255 itself.
pub const IAC: u8 = 255;
