//! A message is posted.
ghost use Rattle.std.specs.Prelude.{◌≤◌, List, ℕ, Option, IfOk, length, None};
ghost use Rattle.jb_disk.specs.Files.{Files};
ghost use Rattle.jb_limits.specs.declared.limits.TheConstants.{MOST_ADDRESS_BYTES, MOST_NAME_BYTES};
ghost use Rattle.jb_redo.specs.Changes.{KeepsRoom};
ghost use Rattle.jb_decide.specs.Decided.{IsDecided, IsKeptFor};
ghost use Rattle.jb_decide.specs.Draft.{draft_of, post_of};
ghost use Rattle.jb_decide.specs.Holds.{AreTexts};

use crate::decided::Decided;
use crate::deciding::decide_long;
use crate::drafts::LentDraft;
use crate::posts::post;
use jb_base::{AreaRules, OutOfMemory, User};
use jb_disk::Redo;
use jb_held::HeldArea;
use std::alloc::Global;

/// What a post comes to. The redo need not have room: it takes what the message needs.
pub fn decide_post(
    alloc: Global,
    held: &HeldArea,
    rules: &AreaRules,
    redo: &mut Redo,
    user: &User,
    moment: u32,
    draft: LentDraft<'_>,
) -> Result<Decided, OutOfMemory>
    requires kept { IsKeptFor rules.now held.now }
    requires name { length user.now.name ≤ MOST_NAME_BYTES }
    requires address { length rules.now.address ≤ MOST_ADDRESS_BYTES }
    ensures decided { IfOk result (λ decided. (texts : List ℕ) (contents : Option Files)
        → AreTexts held.now texts contents
        → IsDecided rules.now held.now texts contents None redo.new user.now moment
        (post_of (draft_of draft.entry)) decided) }
    ensures room { KeepsRoom redo.old redo.new }
{
    let loaded = held.loaded();
    let outcome = post(alloc, loaded, held.replies(), rules, user, moment, draft)?;
    decide_long(alloc, held, redo, outcome, draft.text)
}
