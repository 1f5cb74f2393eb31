//! Lists of numbers of messages, in the order of one of their ids and then of the numbers.
ghost use Rattle.std.specs.Prelude.{◌≡◌, ◌+◌, ◌<◌, ◌≤◌, length};
ghost use Rattle.jb_state.specs.Links.{is_id};
ghost use Rattle.jb_link.specs.IdLists.{IsGreatestWith, IsIdList, IsIdListBut, IsLeastWith, IsNextWith, id_at, id_place};
ghost use Rattle.jb_link.specs.Order.{IsPartWith, IsRising, IsSplitAt, id_order};

use crate::found::id_at;
use crate::hashed::is_before;
use crate::id::hash_of;
use jb_state::Loaded;
use jb_tiered::Tiered;

/// Where in the list this id and this number stand, or would stand.
fn place_of(loaded: &Loaded, kind: u16, numbers: &Tiered<u32>, id: &[u8], number: u32) -> usize
    requires { IsRising id_order (id_place kind loaded.now) numbers.now.items }
    ensures { IsSplitAt id_order (id_place kind loaded.now) numbers.now.items (id.now, number) result }
{
    let hash = hash_of(id);
    numbers.partition_point(|one| is_before(loaded, kind, *one, hash, id, number))
}

/// Whether the message with this number has this id.
fn has_id(loaded: &Loaded, kind: u16, number: u32, id: &[u8]) -> bool
    ensures { result ≡ is_id id.now (id_at kind loaded.now number) }
{
    match id_at(loaded, kind, number) {
        Some(found) => found == id,
        None => false,
    }
}

/// The least number of a message with this id, of those from one number on.
pub(crate) fn next_with(
    loaded: &Loaded,
    kind: u16,
    numbers: &Tiered<u32>,
    id: &[u8],
    from: u32,
) -> Option<u32>
    requires { IsIdList kind loaded.now numbers.now.items }
    ensures { IsNextWith kind loaded.now id.now from result }
{
    let at = place_of(loaded, kind, numbers, id, from);
    let Some(number) = numbers.get(at) else {
        return None;
    };
    if has_id(loaded, kind, number, id) {
        Some(number)
    } else {
        None
    }
}

/// The least number of a message with this id.
pub(crate) fn least_with(
    loaded: &Loaded,
    kind: u16,
    numbers: &Tiered<u32>,
    id: &[u8],
) -> Option<u32>
    requires { IsIdList kind loaded.now numbers.now.items }
    ensures { IsLeastWith kind loaded.now id.now result }
{
    next_with(loaded, kind, numbers, id, 0)
}

/// Where the part of the list begins, and where it ends, that has the numbers from this one on with this id.
pub(crate) fn part_with(
    loaded: &Loaded,
    kind: u16,
    numbers: &Tiered<u32>,
    id: &[u8],
    from: u32,
) -> (usize, usize)
    requires list { IsIdList kind loaded.now numbers.now.items }
    requires from { from ≤ 4_294_967_295 }
    ensures { IsPartWith id_order
        (id_place kind loaded.now) numbers.now.items id.now from 4_294_967_295 result.0 result.1 }
{
    let start = place_of(loaded, kind, numbers, id, from);
    let end = place_of(loaded, kind, numbers, id, u32::MAX);
    (start, end)
}

/// The greatest number of a message with this id.
pub(crate) fn greatest_with(
    loaded: &Loaded,
    kind: u16,
    numbers: &Tiered<u32>,
    id: &[u8],
) -> Option<u32>
    requires list { IsIdList kind loaded.now numbers.now.items }
    requires numbers { loaded.now.base + length loaded.now.slots ≤ 4_294_967_295 }
    ensures { IsGreatestWith kind loaded.now id.now result }
{
    let at = place_of(loaded, kind, numbers, id, u32::MAX);
    if at == 0 {
        return None;
    }
    let number = numbers[at - 1];
    if has_id(loaded, kind, number, id) {
        Some(number)
    } else {
        None
    }
}

/// Puts the message with this number into the list, where it has an id of this kind.
pub(crate) fn put(loaded: &Loaded, kind: u16, numbers: &mut Tiered<u32>, number: u32)
    requires but { IsIdListBut kind loaded.now number numbers.old.items }
    requires room { 0 < numbers.old.room }
    ensures list { IsIdList kind loaded.now numbers.new.items }
    ensures room { numbers.old.room ≤ numbers.new.room + 1 }
{
    let Some(id) = id_at(loaded, kind, number) else {
        return;
    };
    let at = place_of(loaded, kind, numbers, id, number);
    numbers.insert(at, number);
}

/// Takes the message with this number out of the list, where it stands there.
pub(crate) fn take_out(loaded: &Loaded, kind: u16, numbers: &mut Tiered<u32>, number: u32)
    requires { IsIdList kind loaded.now numbers.old.items }
    ensures list { IsIdListBut kind loaded.now number numbers.new.items }
    ensures room { numbers.old.room ≤ numbers.new.room }
{
    let Some(id) = id_at(loaded, kind, number) else {
        return;
    };
    let at = place_of(loaded, kind, numbers, id, number);
    numbers.remove(at);
}
