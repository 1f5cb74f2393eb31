//! The replies of a message that goes, each with the parent that it has then.
ghost use Rattle.std.specs.Prelude.{◌≡◌, ◌+◌, ◌<◌, ◌≤◌, ◌++◌, [], All, is_none, is_some, length, map, nat_lt, OnOk, if◌then◌else◌};
ghost use Rattle.jb_bytes.specs.declared.subfield.TheConstants.{MSGID, REPLYID};
ghost use Rattle.jb_link.specs.IdLists.{IsIdList};
ghost use Rattle.jb_link.specs.Kept.{IsKeptList};
ghost use Rattle.jb_link.specs.Orphans.{AddsOrphans};
ghost use Rattle.jb_link.specs.Part.{part};
ghost use Rattle.jb_state.specs.LiveSlots.{IsLive};
ghost use Rattle.jb_link.specs.declared.orphans.Orphan.{Orphan};

use crate::found::id_at;
use crate::id_lists::{least_with, next_with, part_with};
use crate::kept;
use jb_base::{MSGID, OutOfMemory, REPLYID};
use jb_state::Loaded;
use jb_tiered::Tiered;

/// A live message whose parent is another one, and the parent that it has once that is gone, or 0.
#[derive(Clone, Copy, Debug, PartialEq, Eq)]
pub struct Orphan {
    pub number: u32,
    pub parent: u32,
}

/// Puts these numbers behind the orphans. The heir is the parent of those above it.
fn put_heirs(
    numbers: &Tiered<u32>,
    from: usize,
    to: usize,
    heir: u32,
    orphans: &mut Vec<Orphan>,
) -> Result<(), OutOfMemory>
    requires from { from ≤ to }
    requires to { to ≤ length numbers.now.items }
    ensures { OnOk result (orphans.new.items
        ≡ orphans.old.items ++ map (λ one.
        record { number = one; parent = if nat_lt heir one then heir else 0 })
        (part from to numbers.now.items)) }
{
    for at in from..to {
        let number = numbers[at];
        let parent = if heir < number { heir } else { 0 };
        orphans.push(Orphan { number, parent })?;
    }
    Ok(())
}

/// Puts the second numbers of these pairs behind the orphans. They have no parent.
fn put_kept(
    pairs: &Tiered<(u32, u32)>,
    from: usize,
    to: usize,
    orphans: &mut Vec<Orphan>,
) -> Result<(), OutOfMemory>
    requires from { from ≤ to }
    requires to { to ≤ length pairs.now.items }
    ensures { OnOk result (orphans.new.items ≡ orphans.old.items ++ map (λ pair.
        record { number = pair.1; parent = 0 }) (part from to pairs.now.items)) }
{
    for at in from..to {
        let (_kept, number) = pairs[at];
        orphans.push(Orphan { number, parent: 0 })?;
    }
    Ok(())
}

/// Puts the replies of this live message that have a REPLYID behind the orphans. Where a lower message has the same MSGID,
/// it has none; else the next one with the same MSGID is the parent of those above it.
pub(crate) fn put_by_id(
    loaded: &Loaded,
    ids: &Tiered<u32>,
    answers: &Tiered<u32>,
    number: u32,
    orphans: &mut Vec<Orphan>,
) -> Result<(), OutOfMemory>
    requires ids { IsIdList MSGID loaded.now ids.now.items }
    requires answers { IsIdList REPLYID loaded.now answers.now.items }
    requires base { 1 ≤ loaded.now.base }
    requires numbers { loaded.now.base + length loaded.now.slots ≤ 4_294_967_295 }
    requires live { IsLive loaded.now number }
    ensures { OnOk result (AddsOrphans is_some loaded.now number orphans.old.items orphans.new.items) }
{
    let Some(id) = id_at(loaded, MSGID, number) else {
        return Ok(());
    };
    if least_with(loaded, MSGID, ids, id) != Some(number) {
        return Ok(());
    }
    let heir = next_with(loaded, MSGID, ids, id, number + 1).unwrap_or(0);
    let (from, to) = part_with(loaded, REPLYID, answers, id, number + 1);
    put_heirs(answers, from, to, heir, orphans)
}

/// Puts those that have none behind the orphans.
pub(crate) fn put_by_number(
    loaded: &Loaded,
    pairs: &Tiered<(u32, u32)>,
    number: u32,
    orphans: &mut Vec<Orphan>,
) -> Result<(), OutOfMemory>
    requires list { IsKeptList loaded.now pairs.now.items }
    requires base { 1 ≤ loaded.now.base }
    requires numbers { loaded.now.base + length loaded.now.slots ≤ 4_294_967_295 }
    requires live { IsLive loaded.now number }
    ensures { OnOk result (AddsOrphans is_none loaded.now number orphans.old.items orphans.new.items) }
{
    let (from, to) = kept::part_with(pairs, number);
    put_kept(pairs, from, to, orphans)
}
