//! What a user has read, as the lastread file keeps it (JAM, "Lastread file").
ghost use Rattle.std.specs.Prelude.{◌≡◌, [], ◌∷◌, ◌++◌, OnOk, OnErr};

use jb_base::OutOfMemory;
use std::alloc::Global;
use std::marker::Model;

/// The mark of the user with this `jam_crc` of the name and this number: the message read last, and the highest one read.
#[derive(Clone, Copy, Debug, PartialEq, Eq)]
pub struct Mark {
    pub user_crc: u32,
    pub user_id: u32,
    pub last: u32,
    pub high: u32,
}

/// The marks of an area, in the order of the lastread file. Contracts see the list of them.
#[derive(Drop)]
pub struct Marks {
    items: Vec<Mark>,
}

impl Model for Marks {
    ghost use Rattle.std.specs.Prelude.{List};
    ghost use Rattle.jb_state.specs.declared.mark.Mark.{Mark};

    ghost Value = { List Mark };

    ghost view = { λ m. m.items.items };
}

impl Marks {
    /// None yet. It takes no memory.
    pub fn new(alloc: Global) -> Marks
        ensures { result ≡ [] }
    {
        Marks {
            items: Vec::new(alloc),
        }
    }

    /// The marks, in order.
    pub fn as_slice(&self) -> &[Mark]
        ensures { result.now ≡ self.now }
    {
        self.items.as_slice()
    }

    /// Puts one behind the others, or for want of memory leaves all as it was.
    pub fn push(&mut self, mark: Mark) -> Result<(), OutOfMemory>
        ensures ok { OnOk result (self.new ≡ self.old ++ mark ∷ []) }
        ensures err { OnErr result (self.new ≡ self.old) }
    {
        self.items.push(mark)?;
        Ok(())
    }

    /// The marks as a `Vec`. It takes no memory.
    pub fn into_vec(self) -> Vec<Mark>
        ensures { result.items ≡ self }
    {
        self.items
    }
}

impl From<Vec<Mark>> for Marks {
    ghost from_gives = { λ items marks. marks ≡ items.items };

    fn from(items: Vec<Mark>) -> Marks {
        Marks { items }
    }
}
