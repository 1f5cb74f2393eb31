//! Edits of the summaries of an index, in the room that there is.
ghost use Rattle.std.specs.Prelude.{◌≡◌, ◌+◌, ◌≤◌, [], length, if◌then◌else◌};
ghost use Rattle.jb_index.specs.Cut.{NumbersRise};
ghost use Rattle.jb_index.specs.Edit.{changed_at, fits, with_attribute, with_kept_subject, with_parent, with_summary, without};
ghost use Rattle.jb_index.specs.Room.{HasPlaces};

use crate::listing::{numbered_at, place_of};
use jb_state::{Short, Summary};
use jb_tiered::Tiered;

/// Puts a summary in the place of the one with its number, or between the others, and says whether there is room for it;
/// so many have room in all.
pub(crate) fn put(summaries: &mut Tiered<Summary>, slots: u32, one: &Summary) -> bool
    requires rising { NumbersRise summaries.old.items }
    requires places { HasPlaces slots summaries.old }
    ensures fits { result ≡ fits slots one.now.number summaries.old.items }
    ensures items { summaries.new.items
        ≡ (if result then with_summary one.now summaries.old.items else summaries.old.items) }
    ensures places { HasPlaces slots summaries.new }
{
    if let Some(at) = numbered_at(summaries, one.number) {
        summaries.set(at, *one);
        return true;
    }
    if summaries.len() >= slots as usize {
        return false;
    }
    let at = place_of(summaries, one.number);
    summaries.insert(at, *one);
    true
}

/// Takes the one with this number out.
pub(crate) fn remove(summaries: &mut Tiered<Summary>, number: u32)
    requires { NumbersRise summaries.old.items }
    ensures items { summaries.new.items ≡ without number summaries.old.items }
    ensures places { length summaries.new.items + summaries.new.room
        ≡ length summaries.old.items + summaries.old.room }
    ensures fewer { length summaries.new.items ≤ length summaries.old.items }
{
    if let Some(at) = numbered_at(summaries, number) {
        summaries.remove(at);
    }
}

/// Gives the one with this number another parent.
pub(crate) fn set_parent(summaries: &mut Tiered<Summary>, number: u32, parent: u32)
    requires { NumbersRise summaries.old.items }
    ensures items { summaries.new.items ≡ changed_at number (with_parent parent) summaries.old.items }
    ensures room { summaries.new.room ≡ summaries.old.room }
{
    if let Some(at) = numbered_at(summaries, number) {
        let mut one = summaries[at];
        one.parent = parent;
        summaries.set(at, one);
    }
}

/// Gives the one with this number other bits of its attribute.
pub(crate) fn set_attribute(summaries: &mut Tiered<Summary>, number: u32, attribute: u32)
    requires { NumbersRise summaries.old.items }
    ensures items { summaries.new.items ≡ changed_at number (with_attribute attribute) summaries.old.items }
    ensures room { summaries.new.room ≡ summaries.old.room }
{
    if let Some(at) = numbered_at(summaries, number) {
        let mut one = summaries[at];
        one.attribute = attribute;
        summaries.set(at, one);
    }
}

/// Gives the one with this number another subject.
pub(crate) fn set_subject(summaries: &mut Tiered<Summary>, number: u32, subject: Short<72>)
    requires { NumbersRise summaries.old.items }
    ensures items { summaries.new.items ≡ changed_at number (with_kept_subject subject) summaries.old.items }
    ensures room { summaries.new.room ≡ summaries.old.room }
{
    if let Some(at) = numbered_at(summaries, number) {
        let mut one = summaries[at];
        one.subject = subject;
        summaries.set(at, one);
    }
}

/// Takes all of them out, the last one first.
fn clear(summaries: &mut Tiered<Summary>)
    ensures items { summaries.new.items ≡ [] }
    ensures room { summaries.new.room ≡ length summaries.old.items + summaries.old.room }
{
    while summaries.len() > 0 {
        summaries.remove(summaries.len() - 1);
    }
}

/// Has these in the place of those that are there.
pub(crate) fn refill(summaries: &mut Tiered<Summary>, from: &Tiered<Summary>)
    requires { length from.now.items ≤ length summaries.old.items + summaries.old.room }
    ensures items { summaries.new.items ≡ from.now.items }
    ensures places { length summaries.new.items + summaries.new.room
        ≡ length summaries.old.items + summaries.old.room }
{
    clear(summaries);
    for place in 0..from.len() {
        summaries.push(from[place]);
    }
}
