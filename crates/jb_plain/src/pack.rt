//! Killed messages are dropped.
ghost use Rattle.std.specs.Prelude.{◌≡◌, ◌<◌, ◌≤◌, ◌^◌, IfOk, vec_len};
ghost use Rattle.jb_model.specs.Pack.{pack_refusal, pack_step};
ghost use Rattle.jb_state.specs.Tight.{texts_together};
ghost use Rattle.jb_plain.specs.Changes.{cut_area, tightened_area};
ghost use Rattle.jb_plain.specs.Seen.{seen_state};
ghost use Rattle.jb_plain.specs.Small.{AreSmall};

use crate::held::PlainState;
use crate::relink::write_links;
use crate::rule::denied;
use crate::slots::{
    cut_front, empty_killed, headers_length, killed_messages, live_messages, slots_in_front,
    texts_length,
};
use jb_access::Action;
use jb_base::{AreaRules, OutOfMemory, TEXTS_CEILING, User};
use jb_model::Reply;
use std::alloc::Global;

/// Why an area is not packed: its live texts are too long together.
fn refusal(state: &PlainState) -> Option<Reply>
    requires { texts_together (seen_state state.now).slots < 2 ^ 64 }
    ensures { result ≡ pack_refusal (seen_state state.now) }
{
    let length = texts_length(&state.slots);
    if length > TEXTS_CEILING {
        return Some(Reply::TextFull { length });
    }
    None
}

/// Drops the first slots, and all killed messages.
fn drop_killed(state: &mut PlainState, front: usize)
    requires { front ≤ vec_len state.old.slots }
    ensures { seen_state state.new ≡ cut_area (seen_state state.old) front }
{
    cut_front(&mut state.slots, front);
    empty_killed(&mut state.slots);
    state.base += front as u32;
}

/// Takes the lengths of files that hold just the messages.
fn tighten(state: &mut PlainState)
    ensures { seen_state state.new ≡ tightened_area (seen_state state.old) }
{
    state.headers_len = headers_length(&state.slots);
    state.texts_len = texts_length(&state.slots);
}

/// The sysop has the area packed.
pub(crate) fn pack(
    alloc: Global,
    rules: &AreaRules,
    state: &mut PlainState,
    user: &User,
) -> Result<Reply, OutOfMemory>
    requires { AreSmall (seen_state state.old).slots }
    ensures { IfOk result (λ reply. record { reply = reply; state = seen_state state.new }
        ≡ pack_step rules.now (seen_state state.old) user.now) }
{
    if let Some(rule) = denied(user, rules, Action::Tend) {
        return Ok(Reply::Denied { rule });
    }
    if let Some(refusal) = refusal(state) {
        return Ok(refusal);
    }
    let live = live_messages(&state.slots) as u32;
    let dropped = killed_messages(&state.slots) as u32;
    let front = slots_in_front(&state.slots);
    write_links(alloc, state)?;
    drop_killed(state, front);
    tighten(state);
    state.count();
    Ok(Reply::Packed {
        base: state.base,
        live,
        dropped,
    })
}
