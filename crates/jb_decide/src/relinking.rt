//! The reply links of an area are computed anew.
ghost use Rattle.std.specs.Prelude.{List, ℕ, Option, IfOk, None};
ghost use Rattle.jb_disk.specs.Files.{Files};
ghost use Rattle.jb_model.specs.declared.command.Command.TheVariants.{Relink};
ghost use Rattle.jb_redo.specs.Changes.{KeepsRoom};
ghost use Rattle.jb_decide.specs.Decided.{IsDecided, IsKeptFor};
ghost use Rattle.jb_decide.specs.Holds.{AreTexts};

use crate::decided::Decided;
use crate::deciding::decide_long;
use crate::relinks::relink;
use jb_base::{AreaRules, OutOfMemory, User};
use jb_disk::Redo;
use jb_held::HeldArea;
use std::alloc::Global;

/// What a relink comes to. The redo need not have room: it takes that of the links.
pub fn decide_relink(
    alloc: Global,
    held: &HeldArea,
    rules: &AreaRules,
    redo: &mut Redo,
    user: &User,
) -> Result<Decided, OutOfMemory>
    requires kept { IsKeptFor rules.now held.now }
    ensures decided { IfOk result (λ decided.
        (moment : ℕ) (texts : List ℕ) (contents : Option Files) → AreTexts held.now texts contents
        → IsDecided rules.now held.now texts contents None redo.new user.now moment Relink decided) }
    ensures room { KeepsRoom redo.old redo.new }
{
    let outcome = relink(alloc, held.loaded(), rules, user)?;
    decide_long(alloc, held, redo, outcome, &[])
}
