//! A message is edited.
ghost use Rattle.std.specs.Prelude.{List, ℕ, Option, IfOk, None};
ghost use Rattle.jb_disk.specs.Files.{Files};
ghost use Rattle.jb_redo.specs.Changes.{KeepsRoom};
ghost use Rattle.jb_decide.specs.Decided.{IsDecided, IsKeptFor};
ghost use Rattle.jb_decide.specs.Draft.{edit_of};
ghost use Rattle.jb_decide.specs.Holds.{AreTexts};

use crate::decided::Decided;
use crate::deciding::decide_long;
use crate::drafts::LentEdit;
use crate::edits;
use jb_base::{AreaRules, OutOfMemory, User};
use jb_disk::Redo;
use jb_held::HeldArea;
use std::alloc::Global;

/// What an edit comes to. The redo need not have room: it takes what the message needs.
pub fn decide_edit(
    alloc: Global,
    held: &HeldArea,
    rules: &AreaRules,
    redo: &mut Redo,
    user: &User,
    edit: LentEdit<'_>,
) -> Result<Decided, OutOfMemory>
    requires kept { IsKeptFor rules.now held.now }
    ensures decided { IfOk result (λ decided. (moment : ℕ) (texts : List ℕ) (contents : Option Files)
        → AreTexts held.now texts contents
        → IsDecided rules.now held.now texts contents None redo.new user.now moment
        (edit_of edit.entry) decided) }
    ensures room { KeepsRoom redo.old redo.new }
{
    let outcome = edits::edit(alloc, held.loaded(), rules, user, edit)?;
    decide_long(alloc, held, redo, outcome, edit.text)
}
