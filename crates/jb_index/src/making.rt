//! The summaries of an area that is loaded.
ghost use Rattle.std.specs.Prelude.{◌≡◌, ◌+◌, ◌≤◌, ℕ, [], IfOk, All, length, map, unwrap_or};
ghost use Rattle.jb_bytes.specs.Subfields.{first_of, subfield_bytes};
ghost use Rattle.jb_limits.specs.declared.limits.TheConstants.{MOST_SUBFIELD_BYTES};
ghost use Rattle.jb_index.specs.Index.{summary_of, summary_with};
ghost use Rattle.jb_index.specs.Making.{HasFewBytes};
ghost use Rattle.jb_state.specs.LiveSlots.{linkables_from};
ghost use Rattle.jb_state.specs.Links.{parent_of};
ghost use Rattle.jb_state.specs.Live.{live_from};
ghost use Rattle.jb_state.specs.State.{slot_state};

use jb_base::{OutOfMemory, RECEIVER_NAME, SENDER_NAME, SUBJECT, Subfields};
use jb_state::{LoadedMessage, LoadedSlot, Short, Summary};
use jb_tiered::Tiered;
use std::alloc::Global;

/// The data of the first subfield of a kind, empty where there is none.
fn field(subfields: &Subfields, id: u16) -> &[u8]
    ensures { result.now ≡ unwrap_or (first_of id subfields.now) [] }
{
    match subfields.first(id) {
        Some(bytes) => bytes,
        None => &[],
    }
}

/// The summary of a message with this number and this parent.
pub(crate) fn summary(number: u32, message: &LoadedMessage, parent: u32) -> Summary
    requires { length (subfield_bytes message.now.subfields) ≤ MOST_SUBFIELD_BYTES }
    ensures { result ≡ summary_with number message.now.head message.now.subfields parent }
{
    Summary {
        number,
        from: Short::of(field(&message.subfields, SENDER_NAME)),
        to: Short::of(field(&message.subfields, RECEIVER_NAME)),
        subject: Short::of(field(&message.subfields, SUBJECT)),
        written: message.head.written,
        attribute: message.head.attribute,
        parent,
    }
}

/// The summaries of the live messages of these slots, of which the first has the number `base`. They have these
/// parents, in rising order.
pub(crate) fn summaries_of(
    alloc: Global,
    base: u32,
    slots: &[LoadedSlot],
    parents: &[u32],
) -> Result<Tiered<Summary>, OutOfMemory>
    requires numbers { base + length slots.now ≤ 4_294_967_295 }
    requires few_bytes { All HasFewBytes slots.now }
    requires parents { parents.now ≡ map (parent_of (linkables_from base slots.now))
        (linkables_from base slots.now) }
    ensures { IfOk result (λ list. list.items ≡ map (summary_of (linkables_from base slots.now))
        (live_from base (map (slot_state []) slots.now))) }
{
    let mut list = Tiered::new(alloc);
    for place in 0..slots.len() {
        if let LoadedSlot::Live(message) = &slots[place] {
            let at = list.len();
            let one = summary(base + place as u32, message, parents[at]);
            list.reserve(1)?;
            list.push(one);
        }
    }
    Ok(list)
}
