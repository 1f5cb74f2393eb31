//! What the rules look at of a message.
ghost use Rattle.std.specs.Prelude.{◌≡◌};
ghost use Rattle.jb_base.specs.Access.{is_party, is_sender, is_withheld};
ghost use Rattle.jb_access.specs.Parties.{envelope};

use jb_base::{NODISP, PRIVATE, User};

/// The data of a message's first SENDERNAME and first RECEIVERNAME, empty where there is none, and its Attribute (JAM,
/// "SubFields" and "Attribute").
#[derive(Clone, Copy)]
pub struct Parties<'a> {
    pub from: &'a [u8],
    pub to: &'a [u8],
    pub attribute: u32,
}

impl Parties<'_> {
    /// Whether the user is the sender.
    pub(crate) fn are_from(&self, user: &User) -> bool
        ensures { result ≡ is_sender user.now (envelope self.now) }
    {
        user.name.as_slice().eq_ignore_ascii_case(self.from)
    }

    /// Whether the user is the sender or the receiver.
    pub(crate) fn include(&self, user: &User) -> bool
        ensures { result ≡ is_party user.now (envelope self.now) }
    {
        let name = user.name.as_slice();
        name.eq_ignore_ascii_case(self.from) || name.eq_ignore_ascii_case(self.to)
    }

    /// Whether the message is kept from the user, who is not the sysop.
    pub(crate) fn withhold_from(&self, user: &User) -> bool
        ensures { result ≡ is_withheld user.now (envelope self.now) }
    {
        self.attribute & NODISP != 0 || self.attribute & PRIVATE != 0 && !self.include(user)
    }
}
