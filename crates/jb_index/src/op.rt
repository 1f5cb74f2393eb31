//! What a change of an area does to its index.
ghost use Rattle.std.specs.Prelude.{◌≡◌, [], ◌∷◌, ◌++◌, OnOk, OnErr};

use crate::Index;
use jb_base::OutOfMemory;
use jb_state::{Mark, Short, Summary};
use std::alloc::Global;
use std::marker::Model;

/// One edit of an index. It changes what it names and moves no other summary; what does not fit the room of the index
/// changes nothing.
pub enum OpEdit {
    /// The summary of a message: it takes the place of the one with its number, or comes between the others. The next
    /// number is then above its number.
    Put(Summary),
    /// There is no summary with this number.
    Drop { number: u32 },
    /// The message with this number answers that one, or none where it is 0.
    Parent { number: u32, parent: u32 },
    /// The message with this number has these bits of its attribute.
    Attribute { number: u32, attribute: u32 },
    /// The message with this number has a subject of which a summary keeps this.
    Subject { number: u32, subject: Short<72> },
    /// The base number.
    Base { base: u32 },
    /// The mark takes the place of the first one of its pair, or goes last.
    Mark(Mark),
    /// All summaries, all marks and both numbers are those of another index.
    Reset(Index),
}

// Whoever lets go of one does so in one call.
impl Drop for OpEdit {
    fn drop(self) {
        match self {
            OpEdit::Put(_held) => {}
            OpEdit::Drop { number: _number } => {}
            OpEdit::Parent {
                number: _number,
                parent: _parent,
            } => {}
            OpEdit::Attribute {
                number: _number,
                attribute: _attribute,
            } => {}
            OpEdit::Subject {
                number: _number,
                subject: _subject,
            } => {}
            OpEdit::Base { base: _base } => {}
            OpEdit::Mark(_held) => {}
            OpEdit::Reset(_held) => {}
        }
    }
}

/// What a change of an area does to its index: edits, in order. Contracts see the list of them.
#[derive(Drop)]
pub struct Op {
    edits: Vec<OpEdit>,
}

impl Model for Op {
    ghost use Rattle.std.specs.Prelude.{List};
    ghost use Rattle.jb_index.specs.declared.op.OpEdit.{OpEdit};

    ghost Value = { List OpEdit };

    ghost view = { λ op. op.edits.items };
}

impl Op {
    /// No edit yet. It takes no memory.
    pub fn new(alloc: Global) -> Op
        ensures { result ≡ [] }
    {
        Op {
            edits: Vec::new(alloc),
        }
    }

    /// The edits, in order.
    pub fn as_slice(&self) -> &[OpEdit]
        ensures { result.now ≡ self.now }
    {
        self.edits.as_slice()
    }

    /// Puts one edit behind the others, or for want of memory leaves all as it was.
    pub fn push(&mut self, edit: OpEdit) -> Result<(), OutOfMemory>
        ensures ok { OnOk result (self.new ≡ self.old ++ edit ∷ []) }
        ensures err { OnErr result (self.new ≡ self.old) }
    {
        self.edits.push(edit)?;
        Ok(())
    }
}
