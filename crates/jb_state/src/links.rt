//! The reply links of a message, and of many.
ghost use Rattle.std.specs.Prelude.{◌≡◌};

use std::marker::Model;

/// The links that a live message is to have: the message that it answers, the first that answers it, and the next that
/// answers the same one; 0 for none.
#[derive(Clone, Copy, Debug)]
pub struct Links {
    pub number: u32,
    pub reply_to: u32,
    pub first: u32,
    pub next: u32,
}

/// The links of each live message, in rising order of the numbers. Contracts see the list of them.
#[derive(Debug, Drop)]
pub struct Plan {
    items: Vec<Links>,
}

impl Model for Plan {
    ghost use Rattle.std.specs.Prelude.{List};
    ghost use Rattle.jb_state.specs.declared.links.Links.{Links};

    ghost Value = { List Links };

    ghost view = { λ p. p.items.items };
}

impl Plan {
    /// The links, in order.
    pub fn as_slice(&self) -> &[Links]
        ensures { result.now ≡ self.now }
    {
        self.items.as_slice()
    }
}

impl From<Vec<Links>> for Plan {
    ghost from_gives = { λ items plan. plan ≡ items.items };

    fn from(items: Vec<Links>) -> Plan {
        Plan { items }
    }
}
