//! The reply links, by walks over all slots (JAM, "Reply linking").
ghost use Rattle.std.specs.Prelude.{◌≡◌, ◌+◌, ◌≤◌, ◌==◌, ◌&&◌, nat_lt, length, map, Option, option_map};
ghost use Rattle.std.specs.Borrow.{Bor};
ghost use Rattle.jb_state.specs.Links.{first_reply_of, is_answered_by, is_kept_by, is_id, is_next_reply, is_reply_to, last_reply_of, linkable, next_reply_of, parent_for, parent_of};
ghost use Rattle.jb_state.specs.Message.{msgid_of};
ghost use Rattle.jb_state.specs.Relinked.{has_its_links, relinked};
ghost use Rattle.jb_plain.specs.Walk.{found_in, last_from, linkables_from, numbered, slot_head, slot_passes, slot_wrong};

use jb_base::{MSGID, REPLYID};
use jb_state::{Head, Message, Slot};

/// Whether the message has this id.
fn has_id(message: &Message, id: &[u8]) -> bool
    ensures { result ≡ is_id id.now (msgid_of message.now.subfields) }
{
    match message.subfields.first(MSGID) {
        Some(msgid) => msgid == id,
        None => false,
    }
}

/// Whether the slot under a number is live, below another number, and has this MSGID.
fn is_answered(slot: &Slot, one: u32, number: u32, id: &[u8]) -> bool
    ensures { result ≡ slot_passes (is_answered_by number id.now) one slot.now }
{
    match slot {
        Slot::Live(message) => one < number && has_id(message, id),
        Slot::Empty => false,
        Slot::Killed => false,
    }
}

/// The least live number below this one whose MSGID has these bytes, or 0.
fn least_with_id(slots: &[Slot], base: u32, number: u32, id: &[u8]) -> u32
    requires { base + length slots.now ≤ 4294967295 }
    ensures { result ≡ found_in (is_answered_by number id.now) base slots.now }
{
    let mut one = base;
    for slot in slots {
        if is_answered(slot, one, number, id) {
            return one;
        }
        one += 1;
    }
    0
}

/// Whether the slot under a number is live, below another number, and the kept one.
fn is_kept(slot: &Slot, one: u32, number: u32, kept: u32) -> bool
    ensures { result ≡ slot_passes (is_kept_by number kept) one slot.now }
{
    match slot {
        Slot::Live(_) => one < number && one == kept,
        Slot::Empty => false,
        Slot::Killed => false,
    }
}

/// The kept number, where it is live and below this one, or 0.
fn kept_if_live(slots: &[Slot], base: u32, number: u32, kept: u32) -> u32
    requires { base + length slots.now ≤ 4294967295 }
    ensures { result ≡ found_in (is_kept_by number kept) base slots.now }
{
    let mut one = base;
    for slot in slots {
        if is_kept(slot, one, number, kept) {
            return one;
        }
        one += 1;
    }
    0
}

/// The parent of a message with this number, this REPLYID and this kept ReplyTo, or 0.
pub(crate) fn parent_with(
    slots: &[Slot],
    base: u32,
    number: u32,
    id: Option<&[u8]>,
    kept: u32,
) -> u32
    requires { base + length slots.now ≤ 4294967295 }
    ensures { result ≡ parent_for (linkables_from base slots.now) number
        (option_map (λ (b : Bor _). b.now) id.entry) kept }
{
    match id {
        Some(id) => least_with_id(slots, base, number, id),
        None => kept_if_live(slots, base, number, kept),
    }
}

/// The parent of a live message, or 0.
fn parent(slots: &[Slot], base: u32, number: u32, message: &Message) -> u32
    requires { base + length slots.now ≤ 4294967295 }
    ensures { result ≡ parent_of (linkables_from base slots.now) (linkable (numbered number message.now)) }
{
    let id = message.subfields.first(REPLYID);
    parent_with(slots, base, number, id, message.head.reply_to)
}

/// Whether the slot under a number is live and its parent is this one.
fn answers(slots: &[Slot], base: u32, slot: &Slot, one: u32, number: u32) -> bool
    requires { base + length slots.now ≤ 4294967295 }
    ensures { result ≡ slot_passes (is_reply_to (linkables_from base slots.now) number) one slot.now }
{
    match slot {
        Slot::Live(message) => parent(slots, base, one, message) == number,
        Slot::Empty => false,
        Slot::Killed => false,
    }
}

/// The least live number whose parent is this one, or 0.
fn first_reply(slots: &[Slot], base: u32, number: u32) -> u32
    requires { base + length slots.now ≤ 4294967295 }
    ensures { result ≡ first_reply_of (linkables_from base slots.now) number }
{
    let mut one = base;
    for slot in slots {
        if answers(slots, base, slot, one, number) {
            return one;
        }
        one += 1;
    }
    0
}

/// The greatest live number whose parent is this one, or 0.
pub(crate) fn last_reply(slots: &[Slot], base: u32, number: u32) -> u32
    requires { base + length slots.now ≤ 4294967295 }
    ensures { result ≡ last_reply_of (linkables_from base slots.now) number }
{
    let mut last = 0;
    let mut one = base;
    for slot in slots {
        if answers(slots, base, slot, one, number) {
            last = one;
        }
        one += 1;
    }
    last
}

/// Whether the slot under a number is live, above another number, and its parent is this one.
fn answers_next(slots: &[Slot], base: u32, slot: &Slot, one: u32, number: u32, parent: u32) -> bool
    requires { base + length slots.now ≤ 4294967295 }
    ensures { result ≡ slot_passes (is_next_reply
        (linkables_from base slots.now) number parent) one slot.now }
{
    match slot {
        Slot::Live(_) => number < one && answers(slots, base, slot, one, parent),
        Slot::Empty => false,
        Slot::Killed => false,
    }
}

/// The least live number above this one with this parent, or 0; 0 where there is no parent.
fn next_reply(slots: &[Slot], base: u32, number: u32, parent: u32) -> u32
    requires { base + length slots.now ≤ 4294967295 }
    ensures { result ≡ next_reply_of (linkables_from base slots.now) number parent }
{
    if parent == 0 {
        return 0;
    }
    let mut one = base;
    for slot in slots {
        if answers_next(slots, base, slot, one, number, parent) {
            return one;
        }
        one += 1;
    }
    0
}

/// The header's fields of a live message with the links that the slots give it.
pub(crate) fn linked_head(slots: &[Slot], base: u32, number: u32, message: &Message) -> Head
    requires { base + length slots.now ≤ 4294967295 }
    ensures { result ≡ (relinked (linkables_from base slots.now) (numbered number message.now)).head }
{
    let reply_to = parent(slots, base, number, message);
    let reply_first = first_reply(slots, base, number);
    let reply_next = next_reply(slots, base, number, reply_to);
    Head {
        reply_to,
        reply_first,
        reply_next,
        ..message.head
    }
}

/// Whether the slot under a number is live and has a link that is another than the slots give it.
pub(crate) fn is_wrong(slots: &[Slot], base: u32, slot: &Slot, number: u32) -> bool
    requires { base + length slots.now ≤ 4294967295 }
    ensures { result ≡ slot_wrong (linkables_from base slots.now) number slot.now }
{
    match slot {
        Slot::Live(message) => {
            let head = linked_head(slots, base, number, message);
            let same = message.head.reply_to == head.reply_to
                && message.head.reply_first == head.reply_first
                && message.head.reply_next == head.reply_next;
            !same
        }
        Slot::Empty => false,
        Slot::Killed => false,
    }
}

/// The header's fields of a slot's message with the links that the slots give it.
pub(crate) fn head_of(slots: &[Slot], base: u32, slot: &Slot, number: u32) -> Option<Head>
    requires { base + length slots.now ≤ 4294967295 }
    ensures { result ≡ slot_head (linkables_from base slots.now) number slot.now }
{
    match slot {
        Slot::Live(message) => Some(linked_head(slots, base, number, message)),
        Slot::Empty => None,
        Slot::Killed => None,
    }
}
