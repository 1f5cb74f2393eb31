//! The reply links of an area are computed anew.
ghost use Rattle.std.specs.Prelude.{◌≡◌, ◌+◌, ◌≤◌, length, IfOk, OnOk, vec_len};
ghost use Rattle.jb_model.specs.Relink.{relink_step};
ghost use Rattle.jb_plain.specs.Seen.{seen_state};
ghost use Rattle.jb_plain.specs.Walk.{heads_from, linkables_from, with_heads, wrong_from};
ghost use Rattle.jb_state.specs.Relinked.{relinked_area};

use crate::held::PlainState;
use crate::links::{head_of, is_wrong};
use crate::rule::denied;
use crate::slots::set_some_head;
use jb_access::Action;
use jb_base::{AreaRules, OutOfMemory, User};
use jb_model::Reply;
use jb_state::{Head, Slot};
use std::alloc::Global;

/// The header's fields of each slot's message with the links that the slots give it.
pub(crate) fn linked_heads(
    alloc: Global,
    slots: &[Slot],
    base: u32,
) -> Result<Vec<Option<Head>>, OutOfMemory>
    requires { base + length slots.now ≤ 4294967295 }
    ensures { IfOk result (λ heads. heads.items ≡ heads_from (linkables_from base slots.now) base slots.now) }
{
    let mut heads = Vec::new(alloc);
    let mut number = base;
    for slot in slots {
        heads.push(head_of(slots, base, slot, number))?;
        number += 1;
    }
    Ok(heads)
}

/// In how many messages a link is another than the slots give.
fn changed_links(slots: &[Slot], base: u32) -> u32
    requires { base + length slots.now ≤ 4294967295 }
    ensures { result ≡ wrong_from (linkables_from base slots.now) base slots.now }
{
    let mut changed = 0;
    let mut number = base;
    for slot in slots {
        if is_wrong(slots, base, slot, number) {
            changed += 1;
        }
        number += 1;
    }
    changed
}

/// Writes the fields into the headers.
pub(crate) fn put_heads(slots: &mut Vec<Slot>, heads: &[Option<Head>])
    requires { vec_len slots.old ≡ length heads.now }
    ensures kept { vec_len slots.new ≡ vec_len slots.old }
    ensures value { slots.new.items ≡ with_heads heads.now slots.old.items }
{
    for place in 0..slots.len() {
        set_some_head(slots, place, heads[place]);
    }
}

/// Writes the links that the area gives into all its headers.
pub(crate) fn write_links(alloc: Global, state: &mut PlainState) -> Result<(), OutOfMemory>
    ensures kept { vec_len state.new.slots ≡ vec_len state.old.slots }
    ensures value { OnOk result (seen_state state.new ≡ relinked_area (seen_state state.old)) }
{
    let heads = linked_heads(alloc, &state.slots, state.base)?;
    put_heads(&mut state.slots, &heads);
    Ok(())
}

/// The sysop has the links computed anew.
pub(crate) fn relink(
    alloc: Global,
    rules: &AreaRules,
    state: &mut PlainState,
    user: &User,
) -> Result<Reply, OutOfMemory>
    ensures { IfOk result (λ reply. record { reply = reply; state = seen_state state.new }
        ≡ relink_step rules.now (seen_state state.old) user.now) }
{
    if let Some(rule) = denied(user, rules, Action::Tend) {
        return Ok(Reply::Denied { rule });
    }
    let changed = changed_links(&state.slots, state.base);
    if changed == 0 {
        return Ok(Reply::Relinked { changed: 0 });
    }
    write_links(alloc, state)?;
    state.count();
    Ok(Reply::Relinked { changed })
}
