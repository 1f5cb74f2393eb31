//! The thread of a message among the summaries.
ghost use Rattle.std.specs.Prelude.{◌≡◌, ◌==◌, ◌&&◌, ◌<◌, Bool, false, true, IfOk, IfSome, filter, find, is_some, length, map, slice_index_or, take};
ghost use Rattle.jb_index.specs.Answer.{is_listed};
ghost use Rattle.jb_index.specs.Cut.{NumbersRise};
ghost use Rattle.jb_index.specs.Thread.{lower_parent, root_in, thread_among};
ghost use Rattle.jb_state.specs.declared.summary.Summary.{Summary};

use crate::listing::numbered_at;
use crate::shown::is_shown;
use jb_base::{AreaRules, OutOfMemory, User};
use jb_state::{Summaries, Summary};
use jb_tiered::Tiered;
use std::alloc::Global;

/// The message with which the thread of the one at this place begins. Those of the ones before it are known: a parent is
/// lower than its replies.
fn root_at(summaries: &Tiered<Summary>, roots: &[u32], place: usize) -> u32
    requires rising { NumbersRise summaries.now.items }
    requires place { place < length summaries.now.items }
    requires roots { roots.now ≡ map (λ one.
        root_in summaries.now.items one.number) (take place summaries.now.items) }
    ensures { (d : Summary) → result ≡ root_in summaries.now.items
        (slice_index_or summaries.now.items place d).number }
{
    let summary = &summaries[place];
    if summary.parent == 0 || summary.number <= summary.parent {
        return summary.number;
    }
    match numbered_at(summaries, summary.parent) {
        Some(at) => roots[at],
        None => summary.parent,
    }
}

/// The message with which the thread of each of them begins, in their order.
fn roots_of(alloc: Global, summaries: &Tiered<Summary>) -> Result<Vec<u32>, OutOfMemory>
    requires { NumbersRise summaries.now.items }
    ensures { IfOk result (λ roots. roots.items
        ≡ map (λ one. root_in summaries.now.items one.number) summaries.now.items) }
{
    let mut roots = Vec::new(alloc);
    for place in 0..summaries.len() {
        let root = root_at(summaries, roots.as_slice(), place);
        roots.push(root)?;
    }
    Ok(roots)
}

/// The place of the message with this number, where the user sees it.
fn shown_at(
    summaries: &Tiered<Summary>,
    rules: &AreaRules,
    user: &User,
    number: u32,
) -> Option<usize>
    requires { NumbersRise summaries.now.items }
    ensures shown { is_some result ≡ is_some (find (λ one.
        one.number == number) (filter (is_listed rules.now user.now) summaries.now.items)) }
    ensures place { IfSome result (λ at. at < length summaries.now.items) }
    ensures number { (d : Summary) → IfSome result (λ at.
        (slice_index_or summaries.now.items at d).number ≡ number) }
{
    let at = numbered_at(summaries, number)?;
    if is_shown(rules, user, &summaries[at]) {
        Some(at)
    } else {
        None
    }
}

/// The first `most` of those that the user sees and whose thread begins with this message.
fn with_root(
    alloc: Global,
    summaries: &Tiered<Summary>,
    rules: &AreaRules,
    user: &User,
    roots: &[u32],
    root: u32,
    most: u32,
) -> Result<Summaries, OutOfMemory>
    requires { roots.now ≡ map (λ one. root_in summaries.now.items one.number) summaries.now.items }
    ensures { IfOk result (λ found. found
        ≡ take most (filter (λ one. is_listed rules.now user.now one &&
        (root_in summaries.now.items one.number == root)) summaries.now.items)) }
{
    let mut found = Summaries::new(alloc);
    for place in 0..summaries.len() {
        if found.as_slice().len() == most as usize {
            return Ok(found);
        }
        let summary = &summaries[place];
        if roots[place] == root && is_shown(rules, user, summary) {
            found.push(*summary)?;
        }
    }
    Ok(found)
}

/// The first `most` of those that the user sees in the thread of the message with this number, where the user sees that.
pub(crate) fn first_of_thread(
    alloc: Global,
    summaries: &Tiered<Summary>,
    rules: &AreaRules,
    user: &User,
    number: u32,
    most: u32,
) -> Result<Summaries, OutOfMemory>
    requires { NumbersRise summaries.now.items }
    ensures { IfOk result (λ found. found ≡ take most (thread_among summaries.now.items
        (filter (is_listed rules.now user.now) summaries.now.items) number)) }
{
    let Some(at) = shown_at(summaries, rules, user, number) else {
        return Ok(Summaries::new(alloc));
    };
    let roots = roots_of(alloc, summaries)?;
    let root = roots[at];
    with_root(alloc, summaries, rules, user, &roots, root, most)
}
