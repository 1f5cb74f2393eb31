//! Pairs of a number that a header keeps as its ReplyTo and of the message whose header it is, in rising order.
ghost use Rattle.std.specs.Prelude.{◌≡◌, ◌+◌, ◌<◌, ◌≤◌, IfOk, All, length};
ghost use Rattle.std.specs.Ordering.{is_lt};
ghost use Rattle.jb_link.specs.Kept.{ArePairsBelow, IsKeptList, IsKeptListBut, IsLastWith, LosesPairOf, pair_at};
ghost use Rattle.jb_link.specs.Order.{IsPartWith, IsRising, IsSplitAt, pair_order};

use crate::found::message_at;
use jb_base::{OutOfMemory, REPLYID};
use jb_state::Loaded;
use jb_tiered::Tiered;
use std::alloc::Global;

/// The pair of the live message with this number, where it has no REPLYID and keeps a lower number that the area has.
fn pair_at(loaded: &Loaded, number: u32) -> Option<(u32, u32)>
    ensures { result ≡ pair_at loaded.now number }
{
    let message = message_at(loaded, number)?;
    let kept = message.head.reply_to;
    if message.subfields.first(REPLYID).is_none() && loaded.base <= kept && kept < number {
        Some((kept, number))
    } else {
        None
    }
}

/// The pairs of all messages, in the order of the messages.
fn pairs_of(alloc: Global, loaded: &Loaded) -> Result<Vec<(u32, u32)>, OutOfMemory>
    requires { loaded.now.base + length loaded.now.slots ≤ 4_294_967_295 }
    ensures { IfOk result (λ pairs. ArePairsBelow loaded.now
        (loaded.now.base + length loaded.now.slots) pairs.items) }
{
    let mut pairs = Vec::new(alloc);
    for place in 0..loaded.slots.as_slice().len() {
        if let Some(pair) = pair_at(loaded, loaded.base + place as u32) {
            pairs.push(pair)?;
        }
    }
    Ok(pairs)
}

/// The list of the pairs. Its cost is that of sorting them.
pub(crate) fn ordered(alloc: Global, loaded: &Loaded) -> Result<Tiered<(u32, u32)>, OutOfMemory>
    requires { loaded.now.base + length loaded.now.slots ≤ 4_294_967_295 }
    ensures { IfOk result (λ pairs. IsKeptList loaded.now pairs.items) }
{
    let mut pairs = pairs_of(alloc, loaded)?;
    pairs.sort_unstable();
    Tiered::copy(alloc, &pairs)
}

/// Whether a pair stands before another.
fn is_before(one: (u32, u32), other: (u32, u32)) -> bool
    ensures { result ≡ is_lt (pair_order one other) }
{
    one < other
}

/// Where in the list this pair stands, or would stand.
fn place_of(pairs: &Tiered<(u32, u32)>, asked: (u32, u32)) -> usize
    requires { IsRising pair_order (λ pair. pair) pairs.now.items }
    ensures { IsSplitAt pair_order (λ pair. pair) pairs.now.items asked result }
{
    pairs.partition_point(|pair| is_before(*pair, asked))
}

/// The greatest number that stands in a pair behind this one.
pub(crate) fn last_with(pairs: &Tiered<(u32, u32)>, kept: u32) -> Option<u32>
    requires rising { IsRising pair_order (λ pair. pair) pairs.now.items }
    requires numbers { All (λ pair. pair.1 < 4_294_967_295) pairs.now.items }
    ensures { IsLastWith pairs.now.items kept result }
{
    let at = place_of(pairs, (kept, u32::MAX));
    if at == 0 {
        return None;
    }
    let (first, number) = pairs[at - 1];
    if first == kept { Some(number) } else { None }
}

/// Where the part of the list begins, and where it ends, that has the pairs with this first number.
pub(crate) fn part_with(pairs: &Tiered<(u32, u32)>, kept: u32) -> (usize, usize)
    requires { IsRising pair_order (λ pair. pair) pairs.now.items }
    ensures { IsPartWith pair_order (λ pair. pair) pairs.now.items kept 0 4_294_967_295 result.0 result.1 }
{
    let start = place_of(pairs, (kept, 0));
    let end = place_of(pairs, (kept, u32::MAX));
    (start, end)
}

/// Puts the pair of the message with this number into the list, where it has one.
pub(crate) fn put(loaded: &Loaded, pairs: &mut Tiered<(u32, u32)>, number: u32)
    requires but { IsKeptListBut loaded.now number pairs.old.items }
    requires room { 0 < pairs.old.room }
    ensures list { IsKeptList loaded.now pairs.new.items }
    ensures room { pairs.old.room ≤ pairs.new.room + 1 }
{
    let Some(pair) = pair_at(loaded, number) else {
        return;
    };
    let at = place_of(pairs, pair);
    pairs.insert(at, pair);
}

/// Takes the pair of the message with this number out of the list, where it stands there.
pub(crate) fn take_out(loaded: &Loaded, pairs: &mut Tiered<(u32, u32)>, number: u32)
    requires { IsRising pair_order (λ pair. pair) pairs.old.items }
    ensures list { LosesPairOf loaded.now number pairs.old.items pairs.new.items }
    ensures room { pairs.old.room ≤ pairs.new.room }
{
    let Some(pair) = pair_at(loaded, number) else {
        return;
    };
    let at = place_of(pairs, pair);
    if at < pairs.len() && pairs[at] == pair {
        pairs.remove(at);
    }
}
