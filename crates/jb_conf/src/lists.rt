//! The lists and texts of a board, which contracts see as lists.
ghost use Rattle.std.specs.Prelude.{◌≡◌, [], ◌∷◌, ◌++◌, IfOk, OnOk, OnErr, length};

use crate::{BoardArea, BoardUser};
use jb_base::OutOfMemory;
use std::alloc::Global;
use std::marker::Model;

/// A text. Contracts see the list of its bytes.
#[derive(Drop)]
pub struct Text {
    inner: String,
}

impl Model for Text {
    ghost use Rattle.std.specs.Prelude.{List, ℕ, string_bytes};

    ghost Value = { List ℕ };

    ghost view = { λ t. string_bytes t.inner };
}

impl Text {
    /// A copy of this text.
    pub fn copy(alloc: Global, from: &str) -> Result<Text, OutOfMemory>
        ensures { IfOk result (λ copy. copy ≡ from.now) }
    {
        let inner = String::from_str(alloc, from)?;
        Ok(Text { inner })
    }

    /// A copy of one text with another behind it.
    pub fn joined(alloc: Global, front: &str, back: &str) -> Result<Text, OutOfMemory>
        ensures { IfOk result (λ text. text ≡ front.now ++ back.now) }
    {
        let mut inner = String::from_str(alloc, front)?;
        inner.push_str(back)?;
        Ok(Text { inner })
    }

    /// The text.
    pub fn as_str(&self) -> &str
        ensures { result.now ≡ self.now }
    {
        self.inner.as_str()
    }
}

/// The areas of a board, in the order of their numbers. Contracts see the list of them.
#[derive(Drop)]
pub struct BoardAreas {
    items: Vec<BoardArea>,
}

impl Model for BoardAreas {
    ghost use Rattle.std.specs.Prelude.{List};
    ghost use Rattle.jb_conf.specs.declared.board.BoardArea.{BoardArea};

    ghost Value = { List BoardArea };

    ghost view = { λ a. a.items.items };
}

impl BoardAreas {
    /// None yet. It takes no memory.
    pub fn new(alloc: Global) -> BoardAreas
        ensures { result ≡ [] }
    {
        BoardAreas {
            items: Vec::new(alloc),
        }
    }

    /// The areas, in order.
    pub fn as_slice(&self) -> &[BoardArea]
        ensures { result.now ≡ self.now }
    {
        self.items.as_slice()
    }

    /// Puts one behind the others, or for want of memory leaves all as it was.
    pub fn push(&mut self, area: BoardArea) -> Result<(), OutOfMemory>
        ensures ok { OnOk result (self.new ≡ self.old ++ area ∷ []) }
        ensures err { OnErr result (self.new ≡ self.old) }
    {
        self.items.push(area)?;
        Ok(())
    }
}

/// The users of a board, in the order of the settings file. Contracts see the list of them.
#[derive(Drop)]
pub struct BoardUsers {
    items: Vec<BoardUser>,
}

impl Model for BoardUsers {
    ghost use Rattle.std.specs.Prelude.{List};
    ghost use Rattle.jb_conf.specs.declared.board.BoardUser.{BoardUser};

    ghost Value = { List BoardUser };

    ghost view = { λ u. u.items.items };
}

impl BoardUsers {
    /// None yet. It takes no memory.
    pub fn new(alloc: Global) -> BoardUsers
        ensures { result ≡ [] }
    {
        BoardUsers {
            items: Vec::new(alloc),
        }
    }

    /// The users, in order.
    pub fn as_slice(&self) -> &[BoardUser]
        ensures { result.now ≡ self.now }
    {
        self.items.as_slice()
    }

    /// Puts one behind the others, or for want of memory leaves all as it was.
    pub fn push(&mut self, user: BoardUser) -> Result<(), OutOfMemory>
        ensures ok { OnOk result (self.new ≡ self.old ++ user ∷ []) }
        ensures err { OnErr result (self.new ≡ self.old) }
    {
        self.items.push(user)?;
        Ok(())
    }
}

/// Texts. Contracts see the list of them.
#[derive(Drop)]
pub struct Texts {
    items: Vec<Text>,
}

impl Model for Texts {
    ghost use Rattle.std.specs.Prelude.{List, ℕ};

    ghost Value = { List (List ℕ) };

    ghost view = { λ t. t.items.items };
}

impl Texts {
    /// None yet. It takes no memory.
    pub fn new(alloc: Global) -> Texts
        ensures { result ≡ [] }
    {
        Texts {
            items: Vec::new(alloc),
        }
    }

    /// The texts, in order.
    pub fn as_slice(&self) -> &[Text]
        ensures { result.now ≡ self.now }
    {
        self.items.as_slice()
    }

    /// Puts one behind the others, or for want of memory leaves all as it was.
    pub fn push(&mut self, text: Text) -> Result<(), OutOfMemory>
        ensures ok { OnOk result (self.new ≡ self.old ++ text ∷ []) }
        ensures err { OnErr result (self.new ≡ self.old) }
    {
        self.items.push(text)?;
        Ok(())
    }
}
