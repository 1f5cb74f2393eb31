//! What a kill makes of the index: the message goes, and those that answered it have another parent or none.
ghost use Rattle.std.specs.Prelude.{◌≡◌, ◌+◌, ◌≤◌, ◌++◌, [], IfOk, OnOk, length, map};
ghost use Rattle.jb_index.specs.Change.{edits_of_kill};
ghost use Rattle.jb_index.specs.declared.op.OpEdit.TheVariants.{Parent};
ghost use Rattle.jb_link.specs.Index.{IsIndexOf};
ghost use Rattle.jb_state.specs.LiveSlots.{IsLive, linkables};

use crate::{Op, OpEdit};
use jb_base::OutOfMemory;
use jb_link::{Orphan, Replies};
use jb_state::Loaded;
use std::alloc::Global;

/// Puts the edits of these behind the others.
fn put_parents(op: &mut Op, orphans: &[Orphan]) -> Result<(), OutOfMemory>
    ensures { OnOk result (op.new ≡ op.old ++ map (λ one. Parent one.number one.parent) orphans.now) }
{
    for orphan in orphans {
        op.push(OpEdit::Parent {
            number: orphan.number,
            parent: orphan.parent,
        })?;
    }
    Ok(())
}

/// The edits of a kill of this live message: its own, and one for each message that answers it.
pub(crate) fn killed(
    alloc: Global,
    loaded: &Loaded,
    replies: &Replies,
    number: u32,
) -> Result<Op, OutOfMemory>
    requires index { IsIndexOf replies.now loaded.now }
    requires base { 1 ≤ loaded.now.base }
    requires numbers { loaded.now.base + length loaded.now.slots ≤ 4_294_967_295 }
    requires live { IsLive loaded.now number }
    ensures { IfOk result (λ op. op ≡ edits_of_kill (linkables [] loaded.now) number) }
{
    let orphans = replies.orphans(alloc, loaded, number)?;
    let mut op = Op::new(alloc);
    op.push(OpEdit::Drop { number })?;
    put_parents(&mut op, &orphans)?;
    Ok(op)
}
