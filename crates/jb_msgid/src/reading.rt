//! The text of a MSGID, read.
ghost use Rattle.std.specs.Prelude.{◌≡◌, ℕ, Ok, Err, length};
ghost use Rattle.jb_msgid.specs.Address.{HasNoAddress, IsUnclosed};
ghost use Rattle.jb_msgid.specs.Answer.{ReadsMsgId, IsUnlessMemory};
ghost use Rattle.jb_msgid.specs.Text.{IsMsgId, LacksSerial};
ghost use Rattle.jb_msgid.specs.declared.value.MsgId.{MsgId};

use crate::address::address_of;
use crate::serial::serial_of;
use crate::{MsgId, MsgIdError};
use std::alloc::Global;

/// The value of the text (FTS-0009, "MSGID").
pub fn parse(alloc: Global, text: &[u8]) -> Result<MsgId, MsgIdError>
    ensures cause { ReadsMsgId text.now result }

    // Each text has one answer.
    ensures value { (value : MsgId) → IsMsgId text.now value → IsUnlessMemory result (Ok value) }
    ensures no_serial { (at : ℕ) → LacksSerial text.now at
        → IsUnlessMemory result (Err (MsgIdError.NoSerial at)) }
    ensures bad_quote { IsUnclosed text.now
        → IsUnlessMemory result (Err (MsgIdError.BadQuote (length text.now))) }
    ensures empty { HasNoAddress text.now → IsUnlessMemory result (Err MsgIdError.EmptyAddress) }
{
    read(alloc, text)
}

fn read(alloc: Global, text: &[u8]) -> Result<MsgId, MsgIdError>
    ensures { ReadsMsgId text.now result }
{
    let address = address_of(alloc, text)?;
    match serial_of(&text[address.end..]) {
        Ok(serial) => Ok(MsgId {
            address: address.bytes,
            serial,
        }),
        Err(place) => Err(MsgIdError::NoSerial {
            at: (address.end + place) as u64,
        }),
    }
}
