//! What is answered for many messages at once, over a `Vec`.
ghost use Rattle.std.specs.Prelude.{◌≡◌};

use std::marker::Model;

/// Numbers of messages, in rising order. Contracts see the list of them.
#[derive(Drop)]
pub struct Numbers {
    items: Vec<u32>,
}

impl Model for Numbers {
    ghost use Rattle.std.specs.Prelude.{List, ℕ};

    ghost Value = { List ℕ };

    ghost view = { λ n. n.items.items };
}

impl Numbers {
    /// The numbers, in order.
    pub fn as_slice(&self) -> &[u32]
        ensures { result.now ≡ self.now }
    {
        self.items.as_slice()
    }
}

impl From<Vec<u32>> for Numbers {
    ghost from_gives = { λ items numbers. numbers ≡ items.items };

    fn from(items: Vec<u32>) -> Numbers {
        Numbers { items }
    }
}
