//! From bytes of data to the bytes that are sent.
ghost use Rattle.std.specs.Prelude.{◌≡◌, [], ◌++◌, map, IfOk, OnOk};
ghost use Rattle.std.specs.List.{flat_map};
ghost use Rattle.jb_telnet.specs.Units.{doubled, CutsInto};

use crate::codes::IAC;
use crate::event::Event;
use jb_bytes::{Bytes, OutOfMemory};
use std::alloc::Global;

/// These bytes as they are sent: each 255 is doubled (RFC 854, "TELNET command structure"). Err is want of memory.
pub fn encode(alloc: Global, bytes: &[u8]) -> Result<Bytes, OutOfMemory>
    ensures value { IfOk result (λ sent. sent ≡ flat_map doubled bytes.now) }
    // The peer reads just these bytes.
    ensures fits { IfOk result (λ sent. CutsInto sent (map Event.Byte bytes.now) []) }
{
    let mut sent = Vec::with_capacity(alloc, bytes.len())?;
    for byte in bytes {
        push_doubled(&mut sent, *byte)?;
    }
    Ok(Bytes::from(sent))
}

fn push_doubled(sent: &mut Vec<u8>, byte: u8) -> Result<(), OutOfMemory>
    ensures { OnOk result (sent.new.items ≡ sent.old.items ++ doubled byte) }
{
    sent.push(byte)?;
    if byte == IAC {
        sent.push(IAC)?;
    }
    Ok(())
}
