//! The steps on one queue: a page is put or taken, what was refused is recorded, and the rest is taken out.
ghost use Rattle.std.specs.Prelude.{◌≡◌, ◌↔◌, ◌<◌, ◌≤◌, ℕ, ◌+◌, List, [], ◌∷◌, ◌++◌, length, true, false, Some, None, IsTrue, IfOk, MatchBool, MatchOption, vec_capacity};
ghost use Rattle.crossbeam_queue.specs.Passes.{view, IsPassOf, ruled_capacity};
ghost use Rattle.jb_page.specs.Rows.{row, head_row, row_with_put, row_with_refusal, row_with_taken, row_with_none, senders, FitsAll, pages_of, after_taken, maker, older, newcomer, joined};
ghost use Rattle.jb_page.specs.Seats.{row_of, view_in, queue_of, id_of, HasAll, Leaves, Puts, Gets, HasOneRow};

use crate::hand::{Hand, PageQueue};
use crate::page::Page;
use crate::rule::{All, Both, Next, NextTakes, Put, Queue, Taken, WasEmpty, WasFull};
use std::alloc::{AllocError, Global};
use std::sync::Wait;

/// Pages that wait in one queue.
pub(crate) const ROOM: usize = 64;

impl PageQueue {
    /// A queue with its first pass, which has pager 1 and takes.
    pub(crate) fn new(alloc: Global) -> Result<(PageQueue, Hand), AllocError>
        ensures { IfOk result (λ r. (queue_of r.1 ≡ id_of r.0) × (view_in r.1 ≡ maker)) }
    {
        let (queue, pass) = Queue::ruled(alloc, ROOM)?;
        Ok((PageQueue { queue }, Hand { pass, pager: 1 }))
    }

    /// The pass of the next pager. It takes from now on, if it is to.
    pub(crate) fn next(&self, hand: &mut Hand, takes: bool) -> Hand
        requires queue { queue_of hand.old ≡ id_of self.now }
        requires made { (n : ℕ) × ((view_in hand.old).made ≡ Some n) }
        requires takes { takes ≡ true → ((view_in hand.old).takes ≡ true) × ((row_of hand.old).taken ≡ []) }
        ensures queue { (queue_of hand.new ≡ queue_of hand.old) × (queue_of result ≡ queue_of hand.old) }
        ensures old { MatchBool takes (view_in hand.new ≡ older (view_in hand.old) false) (view_in hand.new ≡ older (view_in hand.old) (view_in hand.old).takes) }
        ensures new { view_in result ≡ newcomer (view_in hand.old) takes }
    {
        let pager = hand.pager.wrapping_add(1);
        if takes {
            let pass = self.queue.another::<NextTakes>(&mut hand.pass);
            return Hand { pass, pager };
        }
        let pass = self.queue.another::<Next>(&mut hand.pass);
        Hand { pass, pager }
    }

    /// Puts a page into the queue, and says whether there was room.
    pub(crate) fn put<R: Wait>(&self, rt: &R, hand: &mut Hand, page: Page) -> bool
        requires queue { queue_of hand.old ≡ id_of self.now }
        requires one { HasOneRow hand.old }
        requires from { page.from ≡ (row_of hand.old).pager }
        ensures puts { Puts page result hand.old hand.new }
    {
        match self.queue.push_as::<Put, R>(rt, &mut hand.pass, page) {
            Ok(()) => true,
            Err(_) => {
                let _ = self.queue.another::<WasFull>(&mut hand.pass);
                false
            }
        }
    }

    /// Takes the oldest page from the queue.
    pub(crate) fn get<R: Wait>(&self, rt: &R, hand: &mut Hand) -> Option<Page>
        requires queue { queue_of hand.old ≡ id_of self.now }
        requires one { HasOneRow hand.old }
        requires takes { (view_in hand.old).takes ≡ true }
        ensures gets { Gets result hand.old hand.new }
    {
        match self.queue.pop_as::<Taken, R>(rt, &mut hand.pass) {
            Some(page) => Some(page),
            None => {
                let _ = self.queue.another::<WasEmpty>(&mut hand.pass);
                None
            }
        }
    }

    /// Takes out all pages that wait, with the hand that took in all others.
    pub(crate) fn drain<R: Wait>(&self, rt: &R, hand: &mut Hand, left: &mut Vec<Page>)
        requires queue { queue_of hand.old ≡ id_of self.now }
        requires all { ((view_in hand.old).takes ≡ true) × HasAll (view_in hand.old) × (0 < length (view_in hand.old).rows) }
        requires room { length left.old.items + 64 ≤ vec_capacity left.old }
        ensures leaves { Leaves (view_in hand.old) left.old.items left.new.items }
        ensures room { vec_capacity left.new ≡ vec_capacity left.old }
    {
        let count = self.queue.len_as::<All, R>(rt, &mut hand.pass);
        for done in 0..count {
            match self.queue.pop_as::<All, R>(rt, &mut hand.pass) {
                Some(page) => left.push_reserved(page),
                None => unreachable!(),
            }
        }
        self.queue.learn_as::<All>(&mut hand.pass);
    }

    /// One hand takes in another.
    pub(crate) fn join(&self, hand: &mut Hand, other: Hand)
        requires queues { (queue_of hand.old ≡ id_of self.now) × (queue_of other ≡ id_of self.now) }
        requires some { 0 < length (view_in hand.old).rows }
        requires one { HasOneRow other }
        ensures queue { queue_of hand.new ≡ queue_of hand.old }
        ensures both { view_in hand.new ≡ joined (view_in hand.old) (view_in other) }
    {
        self.queue.absorb::<Both>(&mut hand.pass, other.into_pass());
    }
}
