//! All ids of an area in their order. They are sorted as plain numbers, each the upper bits of a hash and below them the place
//! of its message.
ghost use Rattle.std.specs.Prelude.{◌≡◌, ◌+◌, ◌/◌, ◌%◌, ◌<◌, ◌≤◌, IfOk, length};
ghost use Rattle.jb_link.specs.IdLists.{IsIdList, id_place};
ghost use Rattle.jb_link.specs.Keys.{AreKeysBelow, key_number, key_place, numbers_of};
ghost use Rattle.jb_link.specs.Order.{id_order, key_order};

use crate::found::id_at;
use crate::hashed::id_or_empty;
use crate::id::hash_of;
use jb_base::OutOfMemory;
use jb_state::Loaded;
use jb_tiered::Tiered;
use std::alloc::Global;
use std::cmp::Ordering;

/// How keys are made: so many values stand below the bits of a hash, and the first is for this number.
#[derive(Clone, Copy)]
struct Keying {
    base: u32,
    wide: u64,
    ghost some: { 0 < wide },
    ghost numbers: { base + wide ≤ 4_294_967_296 },
}

impl Keying {
    /// The key of the message that stands at this place behind the first.
    fn key(self, hash: u64, place: u32) -> u64
        requires { place < self.wide }
        ensures top { result / self.wide ≡ hash / 2 / self.wide }
        ensures place { result % self.wide ≡ place }
    {
        hash / 2 / self.wide * self.wide + place as u64
    }

    /// The number of the message with this key.
    fn number(self, key: u64) -> u32
        ensures { result ≡ key_number self.base self.wide key }
    {
        self.base + (key % self.wide) as u32
    }
}

/// How two numbers stand to one another by their ids.
fn compare_ids(loaded: &Loaded, kind: u16, one: u32, other: u32) -> Ordering
    ensures { result ≡ id_order (id_place kind loaded.now one) (id_place kind loaded.now other) }
{
    let first = id_or_empty(loaded, kind, one);
    let second = id_or_empty(loaded, kind, other);
    hash_of(first)
        .cmp(&hash_of(second))
        .then(first.cmp(second))
        .then(one.cmp(&other))
}

/// How two keys stand to one another. Nearly all lie so far apart that their upper bits differ, which is seen without a
/// division; the ids are looked at only where these bits are the same, as of equal ids.
fn compare_keys(loaded: &Loaded, kind: u16, keying: Keying, one: u64, other: u64) -> Ordering
    ensures { result ≡ key_order (key_place kind loaded.now keying.base keying.wide one)
        (key_place kind loaded.now keying.base keying.wide other) }
{
    if one < other && keying.wide <= other - one {
        return Ordering::Less;
    }
    if other < one && keying.wide <= one - other {
        return Ordering::Greater;
    }
    match (one / keying.wide).cmp(&(other / keying.wide)) {
        Ordering::Equal => compare_ids(loaded, kind, keying.number(one), keying.number(other)),
        apart => apart,
    }
}

/// The keys of the messages that have an id of this kind, in the order of the messages.
fn keys_of(
    alloc: Global,
    loaded: &Loaded,
    kind: u16,
    keying: Keying,
) -> Result<Vec<u64>, OutOfMemory>
    requires base { keying.base ≡ loaded.now.base }
    requires wide { length loaded.now.slots < keying.wide }
    ensures { IfOk result (λ keys. AreKeysBelow kind loaded.now keying.wide
        (loaded.now.base + length loaded.now.slots) keys.items) }
{
    let slots = loaded.slots.as_slice().len();
    let mut keys = Vec::with_capacity(alloc, slots)?;
    for place in 0..slots {
        if let Some(id) = id_at(loaded, kind, keying.base + place as u32) {
            keys.push(keying.key(hash_of(id), place as u32))?;
        }
    }
    Ok(keys)
}

/// The numbers of the messages with these keys.
fn numbers_of(alloc: Global, keying: Keying, keys: &[u64]) -> Result<Tiered<u32>, OutOfMemory>
    ensures { IfOk result (λ numbers. numbers.items ≡ numbers_of keying.base keying.wide keys.now) }
{
    let mut numbers = Tiered::new(alloc);
    numbers.reserve(keys.len())?;
    for key in keys {
        numbers.push(keying.number(*key));
    }
    Ok(numbers)
}

/// The list of the ids of this kind. Its cost is that of hashing each and of sorting plain numbers: the second sort finds
/// them in order, but where two ids have the same upper bits.
pub(crate) fn ordered(alloc: Global, loaded: &Loaded, kind: u16) -> Result<Tiered<u32>, OutOfMemory>
    requires { loaded.now.base + length loaded.now.slots ≤ 4_294_967_295 }
    ensures { IfOk result (λ numbers. IsIdList kind loaded.now numbers.items) }
{
    let keying = Keying {
        base: loaded.base,
        wide: loaded.slots.as_slice().len() as u64 + 1,
    };
    let mut keys = keys_of(alloc, loaded, kind, keying)?;
    keys.sort_unstable();
    keys.sort_unstable_by(|one, other| compare_keys(loaded, kind, keying, *one, *other));
    numbers_of(alloc, keying, &keys)
}
