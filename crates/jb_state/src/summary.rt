//! A message in a list, and the figures of an area.
ghost use Rattle.std.specs.Prelude.{◌≡◌, [], ◌∷◌, ◌++◌, OnOk, OnErr};

use crate::Short;
use jb_base::OutOfMemory;
use std::alloc::Global;
use std::marker::Model;

/// A message in a list: its number, the first bytes of its sender, receiver and subject (empty where it has none), when it
/// was written in seconds since 1970, the bits of its attribute, and the number of the message that it answers, 0 for none.
#[derive(Clone, Copy)]
pub struct Summary {
    pub number: u32,
    pub from: Short<36>,
    pub to: Short<36>,
    pub subject: Short<72>,
    pub written: u32,
    pub attribute: u32,
    pub parent: u32,
}

/// The numbers of an area for a user: the base number, the next number, how many messages the user sees and how many of
/// these are unread, and the two numbers of the user's mark, 0 without one.
#[derive(Clone, Copy, Debug)]
pub struct Figures {
    pub base: u32,
    pub next: u32,
    pub visible: u32,
    pub unread: u32,
    pub last: u32,
    pub high: u32,
}

/// Summaries of messages, in the order of their numbers. Contracts see the list of them.
#[derive(Drop)]
pub struct Summaries {
    items: Vec<Summary>,
}

impl Model for Summaries {
    ghost use Rattle.std.specs.Prelude.{List};
    ghost use Rattle.jb_state.specs.declared.summary.Summary.{Summary};

    ghost Value = { List Summary };

    ghost view = { λ s. s.items.items };
}

impl Summaries {
    /// None yet. It takes no memory.
    pub fn new(alloc: Global) -> Summaries
        ensures { result ≡ [] }
    {
        Summaries {
            items: Vec::new(alloc),
        }
    }

    /// The summaries, in order.
    pub fn as_slice(&self) -> &[Summary]
        ensures { result.now ≡ self.now }
    {
        self.items.as_slice()
    }

    /// Puts one behind the others, or for want of memory leaves all as it was.
    pub fn push(&mut self, summary: Summary) -> Result<(), OutOfMemory>
        ensures ok { OnOk result (self.new ≡ self.old ++ summary ∷ []) }
        ensures err { OnErr result (self.new ≡ self.old) }
    {
        self.items.push(summary)?;
        Ok(())
    }

    /// The summaries as a `Vec`. It takes no memory.
    pub fn into_vec(self) -> Vec<Summary>
        ensures { result.items ≡ self }
    {
        self.items
    }
}

impl From<Vec<Summary>> for Summaries {
    ghost from_gives = { λ items summaries. summaries ≡ items.items };

    fn from(items: Vec<Summary>) -> Summaries {
        Summaries { items }
    }
}
