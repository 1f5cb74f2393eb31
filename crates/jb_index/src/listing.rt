//! Lists of the summaries that a question asks for.
ghost use Rattle.std.specs.Prelude.{◌≡◌, ◌&&◌, ◌≤◌, IfOk, count_by, drop, filter, length, nat_le, take};
ghost use Rattle.jb_index.specs.Answer.{is_listed};
ghost use Rattle.jb_index.specs.Cut.{IsSplitAt, IsSummaryPlace, NumbersRise};
ghost use Rattle.jb_index.specs.Wanted.{is_kind};

use crate::shown::{Wanted, is_wanted, lowest};
use jb_base::{AreaRules, OutOfMemory, User};
use jb_state::{Summaries, Summary};
use jb_tiered::Tiered;
use std::alloc::Global;

/// How many of them have a number below this one.
pub(crate) fn place_of(summaries: &Tiered<Summary>, number: u32) -> usize
    requires { NumbersRise summaries.now.items }
    ensures { IsSplitAt summaries.now.items number result }
{
    summaries.partition_point(|one| one.number < number)
}

/// The place of the one with this number.
pub(crate) fn numbered_at(summaries: &Tiered<Summary>, number: u32) -> Option<usize>
    requires { NumbersRise summaries.now.items }
    ensures { IsSummaryPlace summaries.now.items number result }
{
    let at = place_of(summaries, number);
    let summary = summaries.get(at)?;
    if summary.number == number {
        Some(at)
    } else {
        None
    }
}

/// The first `most` of those that are wanted, from this place on.
fn picked(
    alloc: Global,
    summaries: &Tiered<Summary>,
    rules: &AreaRules,
    user: &User,
    wanted: Wanted,
    start: usize,
    most: u32,
) -> Result<Summaries, OutOfMemory>
    ensures { IfOk result (λ found. found
        ≡ take most (filter (λ one.
        is_listed rules.now user.now one && is_kind user.now wanted one)
        (drop start summaries.now.items))) }
{
    let mut found = Summaries::new(alloc);
    for place in start..summaries.len() {
        if found.as_slice().len() == most as usize {
            return Ok(found);
        }
        let summary = &summaries[place];
        if is_wanted(rules, user, wanted, summary) {
            found.push(*summary)?;
        }
    }
    Ok(found)
}

/// The first `most` of those that are wanted, with numbers from this one on.
pub(crate) fn first_wanted(
    alloc: Global,
    summaries: &Tiered<Summary>,
    rules: &AreaRules,
    user: &User,
    wanted: Wanted,
    from: u32,
    most: u32,
) -> Result<Summaries, OutOfMemory>
    requires { NumbersRise summaries.now.items }
    ensures { IfOk result (λ found. found
        ≡ take most (filter (λ one. nat_le from one.number) (filter (λ one.
        is_kind user.now wanted one) (filter
        (is_listed rules.now user.now) summaries.now.items)))) }
{
    let start = place_of(summaries, from.max(lowest(wanted)));
    picked(alloc, summaries, rules, user, wanted, start, most)
}

/// How many are wanted.
pub(crate) fn count_wanted(
    summaries: &Tiered<Summary>,
    rules: &AreaRules,
    user: &User,
    wanted: Wanted,
) -> u32
    requires rising { NumbersRise summaries.now.items }
    requires counted { length summaries.now.items ≤ 4_294_967_295 }
    ensures { result ≡ length (filter (λ one.
        is_kind user.now wanted one) (filter (is_listed rules.now user.now) summaries.now.items)) }
{
    let start = place_of(summaries, lowest(wanted));
    let mut count = 0;
    for place in start..summaries.len() {
        if is_wanted(rules, user, wanted, &summaries[place]) {
            count += 1;
        }
    }
    count
}
