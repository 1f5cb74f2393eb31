//! What a node does next.

use crate::noted::{Deed, Noted, Plan, Told};
use jb_model::Reply;
use trial_rows::Act;

/// What a node has done of its plan. `last` is the number of its last post and `before` that of the one before, 0 for none; `next`
/// is the next number that it was shown last.
#[derive(Drop)]
pub(crate) struct Agenda {
    node: u32,
    plan: Plan,
    done: u32,
    last: u32,
    before: u32,
    next: u32,
}

impl Agenda {
    /// Nothing is done yet.
    pub(crate) fn new(plan: Plan, node: u32) -> Agenda {
        Agenda {
            node,
            plan,
            done: 0,
            last: 0,
            before: 0,
            next: 0,
        }
    }

    /// How many deeds there are.
    pub(crate) fn deeds(&self) -> u32 {
        match self.plan {
            Plan::Crowd(posts, _) => posts.saturating_mul(6).saturating_add(1),
            Plan::Watch(posts, _) if self.node == 1 => {
                let calls = posts.saturating_add(posts / 4).saturating_add(posts / 16);
                calls.saturating_mul(2)
            }
            Plan::Watch(_, looks) => looks.saturating_add(looks / 8),
        }
    }

    /// Whether the log is locked while the deed that came last is done.
    pub(crate) fn is_in_order(&self) -> bool {
        self.done == 1 && matches!(self.plan, Plan::Crowd(..))
    }

    // A post in reply to the last one, which is then edited, read and marked; the one before it is shown, and killed where none packs.
    fn crowded(&self, packs: bool) -> Deed {
        match self.done % 6 {
            1 => Deed::Asked(Act::Post, self.last),
            2 => Deed::Asked(Act::Edit, self.last),
            3 => Deed::Asked(Act::Read, self.last),
            4 => Deed::Asked(Act::Mark, self.last),
            5 => Deed::Asked(Act::Peek, self.before),
            _ if packs => Deed::Asked(Act::Pack, 0),
            _ => Deed::Asked(Act::Kill, self.before),
        }
    }

    // A look behind each call. Behind every fourth post the last one is killed, and behind every sixteenth all is packed.
    fn posted(&self) -> Deed {
        match self.done / 2 % 21 {
            _ if self.done % 2 == 1 => Deed::Looked,
            4 | 9 | 14 | 19 => Deed::Asked(Act::Kill, self.last),
            20 => Deed::Asked(Act::Pack, 0),
            _ => Deed::Asked(Act::Post, 0),
        }
    }

    /// What is done next.
    pub(crate) fn next(&mut self) -> Deed {
        let deed = match self.plan {
            Plan::Crowd(_, packs) if self.done > 0 => self.crowded(packs),
            Plan::Crowd(..) => Deed::Asked(Act::Mark, 0),
            Plan::Watch(..) if self.node == 1 => self.posted(),
            // before every eighth look the mark is set to the last number that was shown
            Plan::Watch(..) if self.done % 9 == 7 => {
                Deed::Asked(Act::Mark, self.next.saturating_sub(1))
            }
            Plan::Watch(..) => Deed::Looked,
        };
        self.done = self.done.saturating_add(1);
        deed
    }

    // Where a deed stands in the order of what was noted. A crowd's stand behind the node's last post, which has its number; a pack
    // that left so many messages stands behind all that stand behind the post of that number.
    fn order(&self, told: &Told) -> u64 {
        match (self.plan, told) {
            (Plan::Crowd(..), Told::Replied(Reply::Packed { live, .. })) => u64::from(*live) * 2
                + 1,
            (Plan::Crowd(..), _) => u64::from(self.last) * 2,
            _ => 0,
        }
    }

    /// What is noted of a deed.
    pub(crate) fn noted(&mut self, deed: Deed, told: Told) -> Noted {
        match &told {
            Told::Replied(Reply::Posted { number }) => {
                self.before = self.last;
                self.last = *number;
            }
            Told::Saw { figures, .. } => self.next = figures.next,
            _ => {}
        }
        Noted {
            node: self.node,
            deed,
            order: self.order(&told),
            told,
        }
    }
}
