//! What a node did and saw, and what is wrong with it.

use crate::noted::{Noted, Told};
use jb_model::Reply;
use jb_state::{Figures, Loaded};
use trial_rows::Words;

/// What a node did and saw. `posted`, `killed` and `stopped` count its posts and kills that were answered and its calls that the
/// device stopped; `last` and `mark` are the numbers of its last post and of its mark, as its answers say; `base` and `next` are
/// those that it was shown last. `looks` counts its looks, `fell` those that showed a number below the one before, and `missed` those
/// that did not show what the node's own calls had done.
#[derive(Default, Drop)]
struct Witness {
    posted: u32,
    killed: u32,
    stopped: u32,
    last: u32,
    mark: u32,
    base: u32,
    next: u32,
    looks: u32,
    wrong: u32,
}

impl Witness {
    // How many messages are live, as the answers say, where none but this node posts. A call that was stopped stands or not.
    fn holds(&self, live: u32) -> bool {
        live.abs_diff(self.posted.saturating_sub(self.killed)) <= self.stopped
    }

    // A count and then a look show these. No more were unread than there are numbers above the node's mark.
    fn saw(&mut self, figures: &Figures, unread: u32) {
        let fell = figures.base < self.base || figures.next < self.next;
        let alone = self.posted > 0 && !self.holds(figures.visible);
        let above = figures.next.saturating_sub(1).saturating_sub(self.mark);
        let missed = figures.next <= self.last || figures.last < self.mark || unread > above;
        self.looks = self.looks.saturating_add(1);
        self.wrong = self
            .wrong
            .saturating_add(u32::from(fell || alone || missed));
        self.base = figures.base;
        self.next = figures.next;
    }

    // What the node was told.
    fn hear(&mut self, told: &Told) {
        match told {
            Told::Replied(Reply::Posted { number }) => {
                self.posted = self.posted.saturating_add(1);
                self.last = *number;
            }
            Told::Replied(Reply::Killed { .. }) => self.killed = self.killed.saturating_add(1),
            Told::Replied(Reply::Marked { last, .. }) => self.mark = *last,
            Told::Replied(_) => {}
            Told::Stopped => self.stopped = self.stopped.saturating_add(1),
            Told::Saw { figures, unread } => self.saw(figures, *unread),
        }
    }

    // All that this node was told.
    fn of(noted: &[Noted], node: u32) -> Witness {
        let mut witness = Witness::default();
        for one in noted {
            if one.node == node {
                witness.hear(&one.told);
            }
        }
        witness
    }

    // Whether this is how the area stands, as the answers say, where none but this node posts.
    fn agrees(&self, loaded: &Loaded) -> bool {
        let next = (loaded.base as usize).saturating_add(loaded.slots.as_slice().len());
        let last = u32::try_from(next).unwrap_or(0).saturating_sub(1);
        last.abs_diff(self.posted) <= self.stopped && self.holds(loaded.active)
    }
}

/// What is said of so many nodes, of which the first alone posted, once the area is closed.
pub(crate) fn verdict(words: &mut Words, noted: &[Noted], nodes: u32, loaded: &Loaded) {
    let (mut looks, mut wrong) = (0_u32, 0_u32);
    for node in 0..nodes {
        let one = Witness::of(noted, node.saturating_add(1));
        looks = looks.saturating_add(one.looks);
        wrong = wrong.saturating_add(one.wrong);
    }
    words.number(u64::from(looks));
    words.word("looks:");
    words.word(if wrong == 0 {
        "no number fell, each saw its own calls;"
    } else {
        "a number fell, or own calls were not seen;"
    });
    words.word(if Witness::of(noted, 1).agrees(loaded) {
        "the area holds what was posted"
    } else {
        "the area holds something else"
    });
}
