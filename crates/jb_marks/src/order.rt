//! The index of the marks: their places, in the order of their pairs and then of the places.
ghost use Rattle.std.specs.Prelude.{◌≡◌, ◌+◌, ◌*◌, ◌^◌, ◌≤◌, length, nat_lt, IfOk, vec_capacity};
ghost use Rattle.std.specs.Ordering.{nat_cmp};
ghost use Rattle.jb_limits.specs.declared.limits.TheConstants.{MOST_MARKS};
ghost use Rattle.jb_marks.specs.Order.{EndsSearch, IsOrdered, IsSplit, pair_in, pair_number, place_number};

use jb_base::OutOfMemory;
use jb_state::Mark;
use std::alloc::Global;
use std::cmp::Ordering;

/// The pair of the mark at a place. Beyond the marks it is a pair of zeros, which is never asked for.
fn pair_at(items: &[Mark], place: u32) -> (u32, u32)
    ensures { result ≡ pair_in items.now place }
{
    match items.get(place as usize) {
        Some(mark) => (mark.user_crc, mark.user_id),
        None => (0, 0),
    }
}

/// How two places stand to one another in the index.
fn compare(items: &[Mark], one: u32, other: u32) -> Ordering
    ensures { result ≡ nat_cmp (place_number items.now one) (place_number items.now other) }
{
    pair_at(items, one)
        .cmp(&pair_at(items, other))
        .then(one.cmp(&other))
}

/// Whether a place stands in the index before all places of this pair.
fn is_before(items: &[Mark], place: u32, user_crc: u32, user_id: u32) -> bool
    ensures { result ≡ nat_lt (place_number items.now place) (pair_number user_crc user_id * 2 ^ 32) }
{
    pair_at(items, place) < (user_crc, user_id)
}

/// The index of these marks. Its cost is that of sorting them.
pub(crate) fn ordered_places(alloc: Global, items: &[Mark]) -> Result<Vec<u32>, OutOfMemory>
    requires { length items.now ≤ MOST_MARKS }
    ensures { IfOk result (λ order. IsOrdered items.now order.items) }
{
    let mut order = Vec::with_capacity(alloc, items.len())?;
    for place in 0..items.len() as u32 {
        order.push(place)?;
    }
    order.sort_unstable_by(|one, other| compare(items, *one, *other));
    Ok(order)
}

/// How many places in the index stand before all places of this pair.
fn count_before(items: &[Mark], order: &[u32], user_crc: u32, user_id: u32) -> usize
    requires { IsOrdered items.now order.now }
    ensures { IsSplit items.now order.now (pair_number user_crc user_id) result }
{
    order.partition_point(|place| is_before(items, *place, user_crc, user_id))
}

/// The place of the first mark of this pair; or else where in the index the place of one would stand.
pub(crate) fn search(
    items: &[Mark],
    order: &[u32],
    user_crc: u32,
    user_id: u32,
) -> Result<usize, usize>
    requires ordered { IsOrdered items.now order.now }
    requires few { length items.now ≤ MOST_MARKS }
    ensures { EndsSearch user_crc user_id items.now order.now result }
{
    let at = count_before(items, order, user_crc, user_id);
    let Some(place) = order.get(at) else {
        return Err(at);
    };
    if pair_at(items, *place) == (user_crc, user_id) {
        Ok(*place as usize)
    } else {
        Err(at)
    }
}

/// Puts these in the place of those that are there, in the room that there is.
pub(crate) fn refill<T: Copy>(list: &mut Vec<T>, from: &[T])
    requires { length from.now ≤ vec_capacity list.old }
    ensures items { list.new.items ≡ from.now }
    ensures room { vec_capacity list.old ≤ vec_capacity list.new }
{
    list.clear();
    for item in from {
        list.push_reserved(*item);
    }
}
