//! The order of ids: by a hash of their bytes and, where that is the same, by the bytes. So nearly all comparisons are those
//! of two numbers, and ids of one hash cost no more than as many comparisons of bytes.
ghost use Rattle.std.specs.Prelude.{◌≡◌};
ghost use Rattle.std.specs.Ordering.{is_lt};
ghost use Rattle.jb_link.specs.IdLists.{hash_at, id_place};
ghost use Rattle.jb_link.specs.Order.{bytes_order, hashed_order};

use crate::found::id_at;
use crate::id::hash_of;
use jb_state::Loaded;
use std::cmp::Ordering;

/// The id of this kind of the message with this number; without one, no bytes.
pub(crate) fn id_or_empty(loaded: &Loaded, kind: u16, number: u32) -> &[u8]
    ensures { result.now ≡ (id_place kind loaded.now number).0 }
{
    match id_at(loaded, kind, number) {
        Some(id) => id,
        None => b"",
    }
}

/// How a number stands to this id and this number, where both ids have the same hash.
fn compare_bytes(loaded: &Loaded, kind: u16, one: u32, id: &[u8], number: u32) -> Ordering
    ensures { result ≡ bytes_order (id_place kind loaded.now one) (id.now, number) }
{
    id_or_empty(loaded, kind, one)
        .cmp(id)
        .then(one.cmp(&number))
}

/// Whether a number stands before this id, of which this is the hash, and this number.
pub(crate) fn is_before(
    loaded: &Loaded,
    kind: u16,
    one: u32,
    hash: u64,
    id: &[u8],
    number: u32,
) -> bool
    ensures { result ≡ is_lt (hashed_order
        (hash_at kind loaded.now one, id_place kind loaded.now one) (hash, (id.now, number))) }
{
    match hash_of(id_or_empty(loaded, kind, one)).cmp(&hash) {
        Ordering::Equal => compare_bytes(loaded, kind, one, id, number).is_lt(),
        apart => apart.is_lt(),
    }
}
