//! The subfields of a message header (JAM, "SubFields").
ghost use Rattle.std.specs.Prelude.{◌≡◌, [], ◌∷◌, ◌++◌, IfOk, OnOk, OnErr};
ghost use Rattle.std.specs.Option.{option_map};
ghost use Rattle.std.specs.Borrow.{Bor};
ghost use Rattle.jb_bytes.specs.Number.{number_bytes};
ghost use Rattle.jb_bytes.specs.Subfields.{AreSubfields, IsSubfieldList, first_of};

use crate::part::{HEAD, first_part};
use crate::{Bytes, OutOfMemory};
use std::alloc::Global;
use std::marker::Model;

/// LoID of the subfield with the sender's name.
pub const SENDER_NAME: u16 = 2;
/// LoID of the subfield with the receiver's name.
pub const RECEIVER_NAME: u16 = 3;
/// LoID of the subfield with the message's id, without the kludge's name.
pub const MSGID: u16 = 4;
/// LoID of the subfield with the id of the message that this one answers, without the kludge's name.
pub const REPLYID: u16 = 5;
/// LoID of the subfield with the subject.
pub const SUBJECT: u16 = 6;

/// A subfield: its LoID, its HiID and its data. On disk they stand behind one another, with the length of the data as a
/// number of four bytes before the data.
#[derive(Debug, Drop)]
pub struct Subfield {
    pub id: u16,
    pub hi: u16,
    pub bytes: Bytes,
}

/// The subfields of one message, in the order of its header. They are kept as their bytes, as these stand on disk, so that
/// they take one piece of memory. Contracts see the list of them.
#[derive(Debug, Drop)]
pub struct Subfields {
    bytes: Vec<u8>,
}

impl Model for Subfields {
    ghost use Rattle.std.specs.Prelude.{List};
    ghost use Rattle.jb_bytes.specs.Spelled.{fields_in};
    ghost use Rattle.jb_bytes.specs.Subfields.{IsSubfieldList};
    ghost use Rattle.jb_bytes.specs.declared.subfield.Subfield.{Subfield};

    ghost Value = { List Subfield };

    ghost view = { λ s. fields_in s.bytes.items };

    ghost invariant = { λ s. IsSubfieldList (fields_in s.bytes.items) s.bytes.items };
}

impl Subfields {
    /// None yet. It takes no memory.
    pub fn new(alloc: Global) -> Subfields
        ensures { result ≡ [] }
    {
        Subfields {
            bytes: Vec::new(alloc),
        }
    }

    /// The subfields of which these are the bytes.
    pub fn copy(alloc: Global, bytes: &[u8]) -> Result<Subfields, OutOfMemory>
        requires { AreSubfields bytes.now }
        ensures { IfOk result (λ fields. IsSubfieldList fields bytes.now) }
    {
        let bytes = Vec::from_slice(alloc, bytes)?;
        Ok(Subfields { bytes })
    }

    /// Their bytes, one after another.
    pub fn as_bytes(&self) -> &[u8]
        ensures { IsSubfieldList self.now result.now }
    {
        self.bytes.as_slice()
    }

    /// Puts one behind the others, or for want of memory leaves all as it was. No header holds one of 2^32 bytes or more:
    /// it is refused as memory is.
    pub fn push(&mut self, field: Subfield) -> Result<(), OutOfMemory>
        ensures ok { OnOk result (self.new ≡ self.old ++ field ∷ []) }
        ensures err { OnErr result (self.new ≡ self.old) }
    {
        let data = field.bytes.as_slice();
        if data.len() > u32::MAX as usize {
            return Err(OutOfMemory);
        }
        let head = head_of(field.id, field.hi, data.len() as u32);
        self.bytes.reserve(HEAD + data.len())?;
        let Ok(()) = self.bytes.extend_from_slice(&head) else {
            unreachable!()
        };
        let Ok(()) = self.bytes.extend_from_slice(data) else {
            unreachable!()
        };
        Ok(())
    }

    /// The data of the first subfield with this LoID, whatever its HiID.
    pub fn first(&self, id: u16) -> Option<&[u8]>
        ensures { option_map (λ (bytes : Bor _). bytes.now) result ≡ first_of id self.now }
    {
        let mut rest = self.bytes.as_slice();
        while let Some(part) = first_part(rest) {
            if part.id == id {
                return Some(part.content);
            }
            rest = part.behind;
        }
        None
    }
}

/// What stands before the data: LoID, HiID and the length of the data.
fn head_of(id: u16, hi: u16, len: u32) -> [u8; HEAD]
    ensures { result ≡ number_bytes 2 id ++ number_bytes 2 hi ++ number_bytes 4 len }
{
    [
        (id % 256) as u8,
        (id / 256) as u8,
        (hi % 256) as u8,
        (hi / 256) as u8,
        (len % 256) as u8,
        (len / 256 % 256) as u8,
        (len / 256 / 256 % 256) as u8,
        (len / 256 / 256 / 256) as u8,
    ]
}
