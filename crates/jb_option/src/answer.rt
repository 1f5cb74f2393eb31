//! What is sent back.
ghost use Rattle.std.specs.Prelude.{◌≡◌, ◌≤◌, [], take};
ghost use Rattle.jb_option.specs.Table.{spelled};

use jb_telnet::{IAC, Verb};

/// An answer of no bytes or of three: IAC, a verb and an option.
#[derive(Clone, Copy)]
pub struct Answer3 {
    /// The answer is the first `length` of these.
    pub bytes: [u8; 3],
    /// 0 or 3.
    pub length: u8,
    pub ghost within: { length ≤ 3 },
}

impl Answer3 {
    /// The bytes to send.
    pub fn as_slice(&self) -> &[u8]
        ensures { result.now ≡ take self.now.length self.now.bytes }
    {
        &self.bytes[..self.length as usize]
    }
}

/// Says this of the option, or nothing.
pub(crate) fn spell(verb: Option<Verb>, option: u8) -> Answer3
    ensures { take result.length result.bytes ≡ spelled verb option }
{
    match verb {
        None => Answer3 {
            bytes: [0; 3],
            length: 0,
        },
        Some(verb) => Answer3 {
            bytes: [IAC, verb.code(), option],
            length: 3,
        },
    }
}
