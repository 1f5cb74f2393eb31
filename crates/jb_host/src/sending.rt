//! The sending of a whole text.
ghost use Rattle.std.specs.Prelude.{◌≡◌, ℕ, List, OnOk, OnErr};
ghost use Rattle.jb_bytes.specs.Fault.{HasCause};
ghost use Rattle.jb_host.specs.Wire.{IsFrontOf, Sends};

use crate::{Link, LinkFailed};

/// Sends all of the bytes, in as many writes as the link needs. After a refusal a beginning of them was sent, and never all.
pub fn send<L: Link>(link: &mut L, bytes: &[u8]) -> Result<(), LinkFailed>
    ensures ok { OnOk result (Sends (L.wire link.old).sent bytes.now (L.wire link.new).sent) }
    ensures err { OnErr result ((front : List ℕ) × IsFrontOf front bytes.now
        × Sends (L.wire link.old).sent front (L.wire link.new).sent) }

    // What stays, and the cause of a refusal.
    ensures to_come { (L.wire link.new).to_come ≡ (L.wire link.old).to_come }
    ensures ends { (L.wire link.new).ends ≡ (L.wire link.old).ends }
    ensures unsent { HasCause (L.wire link.old).unsent (L.wire link.new).unsent result }
    ensures quiet { OnOk result ((L.wire link.new).unsent ≡ (L.wire link.old).unsent) }
    ensures fine { OnOk result ((L.wire link.new).faults ≡ (L.wire link.old).faults) }
    ensures cause { HasCause (L.wire link.old).faults (L.wire link.new).faults result }
{
    let mut at = 0;
    while at < bytes.len() {
        at += link.write(&bytes[at..])?;
    }
    Ok(())
}
