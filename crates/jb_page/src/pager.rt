//! The queues of all nodes, and a pager. Their fields are the crate's own.

use crate::hand::{Hand, PageQueue};
use crate::page::Page;
use std::marker::Model;

/// A queue of 64 pages for each of 1 to 32 nodes, and the room for all that closing hands back. Threads share it by `&`. Contracts
/// see for how many nodes they are, and which they are.
#[derive(Drop)]
pub struct Pages {
    pub(crate) queues: Vec<PageQueue>,
    pub(crate) room: Vec<Page>,
    pub(crate) nodes: u32,
}

impl Model for Pages {
    ghost use Rattle.std.specs.Prelude.{vec_capacity};
    ghost use Rattle.jb_page.specs.Pagers.{PagesView};

    ghost Value = { PagesView };

    ghost use Rattle.jb_page.specs.Hands.{queues_view, HasRoom};

    ghost view = { λ p. queues_view p.nodes p.queues.items };

    ghost invariant = { λ p. HasRoom p.nodes p.queues.items p.room.items (vec_capacity p.room) };
}

/// What one node sends and takes pages with, in one thread at a time. Contracts see its number, how many pages it has sent, and of each
/// queue what it did there.
#[derive(Drop)]
pub struct Pager {
    pub(crate) number: u32,
    pub(crate) count: u64,
    pub(crate) hands: Vec<Hand>,
}

impl Model for Pager {
    ghost use Rattle.jb_page.specs.Pagers.{PagerView};

    ghost Value = { PagerView };

    ghost use Rattle.jb_page.specs.Hands.{hands_view, AreHands};

    ghost view = { λ p. hands_view p.number p.count p.hands.items };

    ghost invariant = { λ p. AreHands p.number p.hands.items };
}
