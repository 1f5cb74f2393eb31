//! The calls of a pager, and how the queues and the pagers are made.
ghost use Rattle.std.specs.Prelude.{◌≡◌, ◌<◌, ◌≤◌, ◌+◌, All, length, IfOk, OnOk};
ghost use Rattle.jb_state.specs.Short.{short_of};
ghost use Rattle.jb_page.specs.Pagers.{AnswersSend, AnswersTake, AreNewPagers, IsPagerOf, sent_with, taken_with};
ghost use Rattle.jb_page.specs.Hands.{AreLast, AreOlder};

use crate::hand::{Hand, PageQueue};
use crate::page::{Page, PageError};
use crate::pager::{Pager, Pages};
use crate::queue::ROOM;
use jb_base::OutOfMemory;
use jb_state::Short;
use std::alloc::{AllocError, Global};
use std::sync::Wait;

/// So many pages a pager sends at most: 2^56.
const MOST_PAGES: u64 = 1 << 56;

/// So many queues, each with the hand of the first pager.
fn new_queues(alloc: Global, nodes: u32) -> Result<(Vec<PageQueue>, Vec<Hand>), AllocError>
    ensures count { IfOk result (λ r. length r.0.items ≡ nodes) }
    ensures last { IfOk result (λ r. AreLast r.0.items 1 r.1.items) }
{
    let mut queues = Vec::with_capacity(alloc, nodes as usize)?;
    let mut hands = Vec::with_capacity(alloc, nodes as usize)?;
    for made in 0..nodes {
        let (queue, hand) = PageQueue::new(alloc)?;
        queues.push_reserved(queue);
        hands.push_reserved(hand);
    }
    Ok((queues, hands))
}

/// The next pager's hands, and of the older one's hands those that take for others give that up.
fn next_hands(
    alloc: Global,
    queues: &[PageQueue],
    hands: &mut [Hand],
    number: u32,
) -> Result<Vec<Hand>, AllocError>
    requires last { AreLast queues.now number hands.old }
    requires some { 0 < number }
    ensures next { IfOk result (λ next. AreLast queues.now (number + 1) next.items) }
    ensures old { OnOk result (AreOlder queues.now number hands.new) }
{
    let mut all = Vec::with_capacity(alloc, queues.len())?;
    for k in 0..queues.len() {
        let next = queues[k].next(&mut hands[k], number as usize <= k);
        all.push_reserved(next);
    }
    Ok(all)
}

impl Pages {
    /// The queues of so many nodes, empty, and a pager for each node, in the order of their numbers from 1. It takes the memory for
    /// all pages that closing can hand back.
    pub fn new(alloc: Global, nodes: u32) -> Result<(Pages, Vec<Pager>), OutOfMemory>
        requires nodes { (0 < nodes) × (nodes ≤ 32) }
        ensures nodes { IfOk result (λ r. r.0.nodes ≡ nodes) }
        ensures pagers { IfOk result (λ r. AreNewPagers nodes r.1.items) }
        ensures of { IfOk result (λ r. All (IsPagerOf r.0) r.1.items) }
    {
        let room = Vec::with_capacity(alloc, nodes as usize * ROOM)?;
        let mut pagers = Vec::with_capacity(alloc, nodes as usize)?;
        let (queues, mut hands) = new_queues(alloc, nodes)?;
        for number in 1..nodes {
            let next = next_hands(alloc, queues.as_slice(), hands.as_mut_slice(), number)?;
            pagers.push_reserved(Pager {
                number,
                count: 0,
                hands,
            });
            hands = next;
        }
        pagers.push_reserved(Pager {
            number: nodes,
            count: 0,
            hands,
        });
        Ok((
            Pages {
                queues,
                room,
                nodes,
            },
            pagers,
        ))
    }

    /// Sends a text of at most 72 bytes to the node `to`, which may be the pager's own. It may wait for another thread's step on
    /// that queue, and takes no memory.
    ///
    /// `Full` comes where 64 pages waited for that node at a moment of this call; that it comes nowhere else is tested and not
    /// proved. `Spent` comes exactly where the pager has sent 2^56 pages. After an error no page was put.
    pub fn send<R: Wait>(
        &self,
        rt: &R,
        pager: &mut Pager,
        to: u32,
        text: &[u8],
    ) -> Result<(), PageError>
        requires of { IsPagerOf self.now pager.old }
        requires to { (0 < to) × (to ≤ self.now.nodes) }
        requires short { length text.now ≤ 72 }
        ensures of { IsPagerOf self.now pager.new }
        ensures sends { pager.new ≡ sent_with pager.old to (short_of 72 text.now) result }
        ensures why { AnswersSend pager.old to result }
    {
        if pager.count >= MOST_PAGES {
            return Err(PageError::Spent { sent: pager.count });
        }
        let page = Page {
            from: pager.number,
            serial: pager.count + 1,
            text: Short::of(text),
        };
        let k = to as usize - 1;
        if self.queues[k].put(rt, &mut pager.hands[k], page) {
            pager.count += 1;
            return Ok(());
        }
        Err(PageError::Full { to })
    }

    /// Takes the oldest page that waits for the pager's node. It may wait for another thread's step on that queue, and takes no memory.
    ///
    /// `None` comes only where no page waited at a moment of this call.
    pub fn take<R: Wait>(&self, rt: &R, pager: &mut Pager) -> Option<Page>
        requires of { IsPagerOf self.now pager.old }
        ensures of { IsPagerOf self.now pager.new }
        ensures takes { pager.new ≡ taken_with pager.old result }
        ensures why { AnswersTake pager.old result }
    {
        let k = pager.number as usize - 1;
        self.queues[k].get(rt, &mut pager.hands[k])
    }
}
