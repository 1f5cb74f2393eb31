//! An area is packed.
ghost use Rattle.std.specs.Prelude.{◌≡◌, ◌≢◌, ◌≤◌, ℕ, [], List, Option, None, Some, IfOk, is_some, length};
ghost use Rattle.std.specs.Option.{ForSome};
ghost use Rattle.jb_base.specs.Access.{first_refusal};
ghost use Rattle.jb_base.specs.declared.area.Action.TheVariants.{Tend as Tending};
ghost use Rattle.jb_base.specs.declared.area.AreaRules.{AreaRules};
ghost use Rattle.jb_limits.specs.declared.limits.TheConstants.{MOST_SLOTS, TEXTS_CEILING};
ghost use Rattle.jb_base.specs.declared.user.User.{User};
ghost use Rattle.jb_redo.specs.Changes.{KeepsRoom};
ghost use Rattle.jb_disk.specs.RedoView.{RedoView};
ghost use Rattle.jb_disk.specs.Files.{Files};
ghost use Rattle.jb_held.specs.Pending.{no_room};
ghost use Rattle.jb_image.specs.Stands.{Loads};
ghost use Rattle.jb_state.specs.Sound.{IsSound};
ghost use Rattle.jb_model.specs.declared.command.Command.TheVariants.{Pack};
ghost use Rattle.jb_state.specs.Packed.{texts_size};
ghost use Rattle.jb_pack.specs.Shadow.{HasCopies, left};
ghost use Rattle.jb_decide.specs.Decided.{IsDecided, IsKeptFor};
ghost use Rattle.jb_decide.specs.Holds.{AreTexts};
ghost use Rattle.jb_decide.specs.Packs.{MayPack, is_pack_refused};
ghost use Rattle.jb_state.specs.declared.change.Change.TheVariants.{Nothing};

use crate::decided::Decided;
use jb_access::{Action, allowed};
use jb_base::{AreaRules, OutOfMemory, Rule, User};
use jb_disk::{Disk, Redo};
use jb_held::{HeldArea, Pending};
use jb_link::relink_plan;
use jb_model::Reply;
use jb_pack::{Packer, Packing, pack_comes_to};
use jb_state::Change;
use std::alloc::Global;

/// The rule that keeps the user from packing the area, if one does.
fn denied(user: &User, rules: &AreaRules) -> Option<Rule>
    ensures { result ≡ first_refusal user.now rules.now Tending None }
{
    allowed(user, rules, Action::Tend, None).err()
}

/// Empties the redo. Its room stays.
fn empty(redo: &mut Redo)
    ensures lengths { redo.new.lengths ≡ [] }
    ensures pieces { redo.new.pieces ≡ [] }
    ensures kept { KeepsRoom redo.old redo.new }
{
    redo.clear();
}

/// The reply that refuses a pack, if it is refused: to a user who may not tend the area, and where the live texts together are
/// longer than .JDT may be. It takes no memory and calls no device.
pub fn refuse_pack(held: &HeldArea, rules: &AreaRules, user: &User) -> Option<Reply>
    requires kept { IsKeptFor rules.now held.now }
    ensures refused { ForSome result (λ reply. (moment : ℕ) (texts : List ℕ)
        (contents : Option Files) (redo : RedoView) → AreTexts held.now texts contents
        → IsDecided rules.now held.now texts contents None redo user.now moment Pack
        (record { reply = reply; pending = record { change = Nothing; room = no_room } })) }
    ensures may { result ≡ None → MayPack rules.now held.now user.now }
    ensures says { (texts : List ℕ) → length texts ≡ held.now.texts_len
        → is_pack_refused rules.now texts held.now user.now ≡ is_some result }
{
    if let Some(rule) = denied(user, rules) {
        return Some(Reply::Denied { rule });
    }
    match pack_comes_to(held.loaded()) {
        Packing::TextFull { length } => Some(Reply::TextFull { length }),
        Packing::Fits { .. } => None,
    }
}

/// What a pack comes to that is not refused, once the packer has copied all texts. It calls no device: the disk is named for
/// what it has. It takes the memory of the links and of a copy of the index of the replies; the redo takes that of the new
/// .JHR and .JDX, and none for the texts.
pub fn decide_pack<D: Disk>(
    alloc: Global,
    disk: &D,
    held: &HeldArea,
    packer: &Packer,
    redo: &mut Redo,
) -> Result<Decided, OutOfMemory>
    requires sound { IsSound MOST_SLOTS held.now }
    requires all { left packer.now held.now.slots ≡ 0 }
    requires holds { ForSome (D.device disk.now).contents (Loads held.now) }
    requires has { ForSome (D.device disk.now).contents (HasCopies packer.now) }
    ensures decided { IfOk result (λ decided.
        (rules : AreaRules) (user : User) (moment : ℕ) (texts : List ℕ) (contents : Option Files)
        → IsKeptFor rules held.now → MayPack rules held.now user → AreTexts held.now texts contents
        → IsDecided rules held.now texts contents (Some packer.now) redo.new user moment Pack decided) }
    ensures changes { IfOk result (λ decided. texts_size held.now.slots ≤ TEXTS_CEILING
        → decided.pending.change ≢ Nothing) }
    ensures room { KeepsRoom redo.old redo.new }
{
    let loaded = held.loaded();
    let links = relink_plan(alloc, loaded)?;
    empty(redo);
    match packer.finish(alloc, disk, loaded, links.as_slice(), redo)? {
        Packing::TextFull { length } => Ok(Decided::unchanged(Reply::TextFull { length })),
        Packing::Fits {
            base,
            live,
            dropped,
        } => {
            let room = held.room_for_pack(alloc, base)?;
            let pending = Pending {
                change: Change::Packed { plan: links, base },
                room,
            };
            Ok(Decided {
                reply: Reply::Packed {
                    base,
                    live,
                    dropped,
                },
                pending,
            })
        }
    }
}
