//! All hands come together, and what is left in the queues comes out.
ghost use Rattle.std.specs.Prelude.{◌≡◌, ◌≢◌, ◌↔◌, ◌<◌, ◌≤◌, ◌+◌, ◌*◌, ℕ, List, [], ◌++◌, All, length, true, None, IsTrue, IfOk, IfErr, MatchOption, slice_index_or, vec_capacity};
ghost use Rattle.std.specs.List.{flat_map};
ghost use Rattle.jb_page.specs.declared.page.Page.{Page};
ghost use Rattle.jb_page.specs.Rows.{Has, head_row, joined, senders, FitsAll};
ghost use Rattle.jb_page.specs.Seats.{view_in, queue_of, id_of, HasAll, HasOneRow};
ghost use Rattle.jb_page.specs.Pagers.{IsPagerOf};
ghost use Rattle.jb_page.specs.Hands.{AreOfQueues, IsPagerOn};
ghost use Rattle.jb_page.specs.Gathered.{hand_view, gathered, AreOwn, Drains, HasAllNumbers};
ghost use Rattle.jb_page.specs.Closing.{HasNumber, IsLowestMissing, PagesInOrder};

use crate::hand::{Hand, PageQueue};
use crate::page::Page;
use crate::pager::{Pager, Pages};
use std::sync::Wait;

/// Each hand takes in the other pager's hand of its queue.
fn join_all(queues: &[PageQueue], whole: &mut [Hand], mut hands: Vec<Hand>)
    requires whole { AreOfQueues queues.now whole.old }
    requires hands { AreOfQueues queues.now hands.items }
    requires some { (k : ℕ) (h : _) → k < length queues.now → 0 < length (view_in (slice_index_or whole.old k h)).rows }
    requires one { (k : ℕ) (h : _) → k < length queues.now → HasOneRow (slice_index_or hands.items k h) }
    ensures whole { AreOfQueues queues.now whole.new }
    ensures joined { (k : ℕ) (h : _) → k < length queues.now
        → view_in (slice_index_or whole.new k h) ≡ joined (view_in (slice_index_or whole.old k h)) (hand_view k hands.items) }
{
    while let Some(hand) = hands.pop() {
        let k = hands.len();
        queues[k].join(&mut whole[k], hand);
    }
}

/// All pages that wait come out, queue by queue.
fn drain_all<R: Wait>(rt: &R, queues: &[PageQueue], whole: &mut [Hand], left: &mut Vec<Page>)
    requires whole { AreOfQueues queues.now whole.old }
    requires all { (k : ℕ) (h : _) → k < length queues.now → ((view_in (slice_index_or whole.old k h)).takes ≡ true)
        × HasAll (view_in (slice_index_or whole.old k h)) × (0 < length (view_in (slice_index_or whole.old k h)).rows) }
    requires room { length left.old.items + 64 * length queues.now ≤ vec_capacity left.old }
    ensures { Drains queues.now whole.old left.old.items left.new.items }
{
    for k in 0..queues.len() {
        queues[k].drain(rt, &mut whole[k], left);
    }
}

/// The hands that know what all hands of their queue knew.
fn gather(queues: &[PageQueue], mut pagers: Vec<Pager>) -> Vec<Hand>
    requires some { 0 < length pagers.items }
    requires of { All (IsPagerOn queues.now) pagers.items }
    ensures whole { AreOfQueues queues.now result.items }
    ensures views { (k : ℕ) (h : _) → k < length queues.now → view_in (slice_index_or result.items k h) ≡ gathered (length queues.now) k pagers.items }
    ensures own { AreOwn (length queues.now) pagers.items }
{
    let Some(last) = pagers.pop() else {
        unreachable!()
    };
    let Pager {
        number: _,
        count: _,
        hands: mut whole,
    } = last;
    while let Some(pager) = pagers.pop() {
        let Pager {
            number: _,
            count: _,
            hands: others,
        } = pager;
        join_all(queues, whole.as_mut_slice(), others);
    }
    whole
}

/// Whether a pager has this number.
fn has_number(pagers: &[Pager], number: u32) -> bool
    ensures { IsTrue result ↔ HasNumber pagers.now number }
{
    for pager in pagers {
        if pager.number == number {
            return true;
        }
    }
    false
}

/// The lowest number up to the count that no pager has.
fn first_missing(pagers: &[Pager], count: u32) -> Option<u32>
    requires { count ≤ 32 }
    ensures { MatchOption result (HasAllNumbers pagers.now count) (IsLowestMissing pagers.now count) }
{
    for number in 1..count + 1 {
        if !has_number(pagers, number) {
            return Some(number);
        }
    }
    None
}

impl Pages {
    /// Ends the queues where each pager is there, and gives the pages that are left, by receiver from 1 and in order. It takes no memory.
    ///
    /// `Err` hands all back as it was, with the lowest number, from 1, whose pager is not among them.
    pub fn close<R: Wait>(
        self,
        rt: &R,
        pagers: Vec<Pager>,
    ) -> Result<Vec<Page>, (Pages, Vec<Pager>, u32)>
        requires of { All (IsPagerOf self) pagers.items }
        ensures ok { IfOk result (λ left. PagesInOrder pagers.items (self.nodes) left.items) }
        ensures missing { IfErr result (λ r. IsLowestMissing pagers.items (self.nodes) r.2) }
        ensures kept { IfErr result (λ r. (r.0 ≡ self) × (r.1.items ≡ pagers.items)) }
    {
        if let Some(number) = first_missing(pagers.as_slice(), self.nodes) {
            return Err((self, pagers, number));
        }
        let Pages {
            queues,
            mut room,
            nodes: _,
        } = self;
        let mut whole = gather(queues.as_slice(), pagers);
        drain_all(rt, queues.as_slice(), whole.as_mut_slice(), &mut room);
        Ok(room)
    }
}
