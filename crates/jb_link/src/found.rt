//! The message that a number names, and its ids.
ghost use Rattle.std.specs.Prelude.{◌≡◌, ◌↔◌, ◌-◌, ◌≤◌, ℕ, IsTrue, List, IfSome, is_some, option_map};
ghost use Rattle.std.specs.Borrow.{Bor};
ghost use Rattle.jb_link.specs.Ids.{lent};
ghost use Rattle.jb_link.specs.IdLists.{id_at};
ghost use Rattle.jb_link.specs.Parents.{copied_msgid};
ghost use Rattle.jb_state.specs.Plan.{loaded_at};
ghost use Rattle.jb_state.specs.Live.{message_at};
ghost use Rattle.jb_state.specs.LiveSlots.{IsLive};
ghost use Rattle.jb_state.specs.Loaded.{IsMessageAt};
ghost use Rattle.jb_state.specs.State.{state_of};

use jb_base::{MOST_COPIED_MSGID_BYTES, MSGID};
use jb_state::{Loaded, LoadedMessage, LoadedSlot};

/// The live message that a number names. It stands in the slot at the place of the number.
pub fn message_at(loaded: &Loaded, number: u32) -> Option<&LoadedMessage>
    ensures named { option_map (λ (message : Bor _). message.now) result ≡ loaded_at loaded.now number }
    ensures low { IfSome result (λ message. loaded.now.base ≤ number) }
    ensures here { IfSome result (λ message. IsMessageAt loaded.now (number - loaded.now.base) message.now) }
{
    if number < loaded.base {
        return None;
    }
    match loaded.slots.as_slice().get((number - loaded.base) as usize) {
        Some(LoadedSlot::Live(message)) => Some(message),
        _ => None,
    }
}

/// Whether the number names a live message.
pub fn is_live(loaded: &Loaded, number: u32) -> bool
    ensures told { (texts : List ℕ) → result ≡ is_some (message_at (state_of texts loaded.now) number) }
    ensures live { IsTrue result ↔ IsLive loaded.now number }
{
    message_at(loaded, number).is_some()
}

/// The first subfield of this kind of the live message that a number names.
pub(crate) fn id_at(loaded: &Loaded, kind: u16, number: u32) -> Option<&[u8]>
    ensures { lent result ≡ id_at kind loaded.now number }
{
    message_at(loaded, number)?.subfields.first(kind)
}

/// The REPLYID of an answer to a number: the MSGID that the message has there, where it is copied.
pub fn copied_msgid(loaded: &Loaded, number: u32) -> Option<&[u8]>
    ensures { lent result ≡ copied_msgid loaded.now number }
{
    let id = message_at(loaded, number)?.subfields.first(MSGID)?;
    if id.len() <= MOST_COPIED_MSGID_BYTES {
        Some(id)
    } else {
        None
    }
}
