//! What an area asks of those who use it.
ghost use Rattle.std.specs.Prelude.{◌≡◌, IfOk};

use jb_bytes::{Bytes, OutOfMemory};
use std::alloc::Global;

/// How the messages of an area are marked: TYPELOCAL or TYPEECHO (JAM, "Attribute").
#[derive(Clone, Copy, Debug, PartialEq, Eq)]
pub enum Kind {
    Local,
    Echo,
}

/// What is done in an area, as its rules tell acts apart.
#[derive(Clone, Copy, Debug, PartialEq, Eq)]
pub enum Action {
    /// A look: at what the area holds, at one message, or a mark of what was read.
    List,
    /// A new message.
    Post,
    /// A message is killed.
    Kill,
    /// A message gets another subject and another text.
    Edit,
    /// A pack or a relink.
    Tend,
}

/// The rules that say who may do what, in the order in which they are asked.
#[derive(Clone, Copy, Debug, PartialEq, Eq)]
pub enum Rule {
    /// Every act but tending needs the level that reads.
    A1,
    /// A post needs the level that posts.
    A2,
    /// A private message is for its sender, its receiver and the sysop; one that is not to be shown is for the sysop.
    A3,
    /// A kill needs the message's sender, its receiver or the sysop.
    A4,
    /// Tending (a pack, a relink) needs the sysop.
    A5,
    /// An edit needs the message's sender or the sysop.
    A6,
}

/// The rules of an area. Its ordinal stands in the MSGIDs of what is posted there, behind its address of 1 to 24 bytes;
/// `read`, `post` and `sysop` are the least levels for these; `slots` is the most that it holds, 1 to 1,000,000.
#[derive(Drop)]
pub struct AreaRules {
    pub ordinal: u8,
    pub address: Bytes,
    pub kind: Kind,
    pub read: u8,
    pub post: u8,
    pub sysop: u8,
    pub slots: u32,
}

impl AreaRules {
    /// The same rules once more.
    pub fn copy(&self, alloc: Global) -> Result<AreaRules, OutOfMemory>
        ensures { IfOk result (λ copy. copy ≡ self.now) }
    {
        let address = Bytes::copy(alloc, self.address.as_slice())?;
        Ok(AreaRules {
            ordinal: self.ordinal,
            address,
            kind: self.kind,
            read: self.read,
            post: self.post,
            sysop: self.sysop,
            slots: self.slots,
        })
    }
}
