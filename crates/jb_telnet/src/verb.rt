//! What one side says of an option.
ghost use Rattle.std.specs.Prelude.{◌≡◌};
ghost use Rattle.jb_telnet.specs.Codes.{code_of};

use crate::codes::{DO, DONT, WILL, WONT};

/// What one side says of an option (RFC 854, "TELNET command structure"; RFC 855).
#[derive(Clone, Copy, PartialEq, Eq)]
pub enum Verb {
    /// The sender performs it, or offers to.
    Will,
    /// The sender does not perform it.
    Wont,
    /// The receiver is to perform it.
    Do,
    /// The receiver is not to perform it.
    Dont,
}

impl Verb {
    /// The command byte that says it.
    pub fn code(self) -> u8
        ensures { result ≡ code_of self }
    {
        match self {
            Verb::Will => WILL,
            Verb::Wont => WONT,
            Verb::Do => DO,
            Verb::Dont => DONT,
        }
    }
}
