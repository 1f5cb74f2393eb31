//! What a unit of the stream says.

/// What one unit of the stream says.
#[derive(Clone, Copy, PartialEq, Eq)]
pub enum Event {
    /// A byte of data: itself, or 255 where IAC stands twice.
    Byte(u8),
    /// IAC DO and an option.
    Do(u8),
    /// IAC DONT and an option.
    Dont(u8),
    /// IAC WILL and an option.
    Will(u8),
    /// IAC WONT and an option.
    Wont(u8),
    /// IAC AYT.
    AreYouThere,
    /// IAC EC.
    EraseChar,
    /// IAC EL.
    EraseLine,
    /// A whole subnegotiation, from IAC SB to IAC SE. What it holds is not kept.
    Sub,
    /// IAC and any other byte.
    Other(u8),
}
