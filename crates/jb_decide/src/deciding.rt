//! What a command does is put into the redo, and is pending then.
ghost use Rattle.std.specs.Prelude.{◌≡◌, ℕ, [], List, Option, IfOk, None};
ghost use Rattle.jb_base.specs.declared.area.AreaRules.{AreaRules};
ghost use Rattle.jb_base.specs.declared.user.User.{User};
ghost use Rattle.jb_change.specs.Put.{IsNoPacking, IsShort, IsTextOf};
ghost use Rattle.jb_change.specs.Ready.{HasRoomInAll};
ghost use Rattle.jb_disk.specs.Files.{Files};
ghost use Rattle.jb_limits.specs.declared.limits.TheConstants.{MOST_SLOTS};
ghost use Rattle.jb_state.specs.Change.{Fits};
ghost use Rattle.jb_state.specs.Sound.{IsSound};
ghost use Rattle.jb_model.specs.declared.command.Command.{Command};
ghost use Rattle.jb_model.specs.declared.command.Command.TheVariants.{Kill, SetMark};
ghost use Rattle.jb_model.specs.declared.reply.Reply.{Reply};
ghost use Rattle.jb_redo.specs.Changes.{KeepsRoom};
ghost use Rattle.jb_decide.specs.Decided.{IsAnswerBy, IsDecided, IsKeptFor};
ghost use Rattle.jb_decide.specs.Holds.{AreTexts};
ghost use Rattle.jb_decide.specs.StepOf.{IsStepOf, written_text, text_behind};

use crate::decided::Decided;
use crate::kills::kill;
use crate::marks::set_mark;
use crate::outcome::Outcome;
use jb_base::{AreaRules, OutOfMemory, User};
use jb_change::{put, put_short};
use jb_crc::jam_crc;
use jb_disk::Redo;
use jb_held::{HeldArea, Pending, Room};
use jb_state::Change;
use std::alloc::Global;

/// The text that a change puts behind the others, where this is that of its command.
fn text_behind<'a>(change: &Change, text: &'a [u8]) -> &'a [u8]
    ensures { result.now ≡ text_behind change.now text.now }
{
    match change {
        Change::Posted { .. } | Change::Edited { .. } => text,
        _ => &[],
    }
}

/// Puts a change that takes no memory into the redo; it is pending then.
pub(crate) fn decide_short(held: &HeldArea, redo: &mut Redo, outcome: Outcome) -> Decided
    requires room { HasRoomInAll redo.old }
    requires sound { IsSound MOST_SLOTS held.now }
    requires fits { Fits MOST_SLOTS outcome.change held.now }
    requires kind { IsShort outcome.change }
    ensures decided { (rules : AreaRules) (user : User) (moment : ℕ) (command : Command)
        (reply : List ℕ → Reply) (texts : List ℕ) (contents : Option Files)
        → IsSound rules.slots held.now → AreTexts held.now texts contents
        → IsStepOf rules held.now user moment command reply outcome.change
        → IsAnswerBy reply held.now texts contents outcome.reply
        → IsDecided rules held.now texts contents None redo.new user moment command result }
    ensures room { HasRoomInAll redo.new }
{
    let Outcome { reply, change } = outcome;
    let active = held.live_after(&change);
    put_short(redo, held.loaded(), &change, active);
    let room = Room::none();
    let pending = Pending { change, room };
    Decided { reply, pending }
}

/// Puts a change into the redo, with the text of its command where it writes that; it is pending then. The redo takes the memory
/// that it needs, and so does the room that a post brings.
pub(crate) fn decide_long(
    alloc: Global,
    held: &HeldArea,
    redo: &mut Redo,
    outcome: Outcome,
    text: &[u8],
) -> Result<Decided, OutOfMemory>
    requires sound { IsSound MOST_SLOTS held.now }
    requires fits { Fits MOST_SLOTS outcome.change held.now }
    requires kind { IsNoPacking outcome.change }
    requires text { IsTextOf outcome.change (text_behind outcome.change text.now) }
    ensures decided { IfOk result (λ decided. (rules : AreaRules) (user : User) (moment : ℕ)
        (command : Command) (reply : List ℕ → Reply) (texts : List ℕ) (contents : Option Files)
        → IsSound rules.slots held.now → AreTexts held.now texts contents
        → IsStepOf rules held.now user moment command reply outcome.change
        → written_text command ≡ text.now
        → IsAnswerBy reply held.now texts contents outcome.reply
        → IsDecided rules held.now texts contents None redo.new user moment command decided) }
    ensures room { KeepsRoom redo.old redo.new }
{
    let Outcome { reply, change } = outcome;
    let active = held.live_after(&change);
    let text = text_behind(&change, text);
    put(alloc, redo, held.loaded(), &change, text, active)?;
    let room = held.room_for(alloc, &change)?;
    let pending = Pending { change, room };
    Ok(Decided { reply, pending })
}

/// What the setting of a mark comes to.
pub fn decide_mark(
    held: &HeldArea,
    rules: &AreaRules,
    redo: &mut Redo,
    user: &User,
    number: u32,
) -> Decided
    requires kept { IsKeptFor rules.now held.now }
    requires room { HasRoomInAll redo.old }
    ensures decided { (moment : ℕ) (texts : List ℕ) (contents : Option Files)
        → AreTexts held.now texts contents
        → IsDecided rules.now held.now texts contents None redo.new user.now moment (SetMark number) result }
    ensures room { HasRoomInAll redo.new }
{
    let user_crc = jam_crc(user.name.as_slice());
    let place = held.place_of(user_crc, user.id);
    let present = held.mark_of(user_crc, user.id);
    let outcome = set_mark(held.loaded(), present, place, rules, user, number);
    decide_short(held, redo, outcome)
}

/// What a kill comes to.
pub fn decide_kill(
    held: &HeldArea,
    rules: &AreaRules,
    redo: &mut Redo,
    user: &User,
    number: u32,
) -> Decided
    requires kept { IsKeptFor rules.now held.now }
    requires room { HasRoomInAll redo.old }
    ensures decided { (moment : ℕ) (texts : List ℕ) (contents : Option Files)
        → AreTexts held.now texts contents
        → IsDecided rules.now held.now texts contents None redo.new user.now moment (Kill number) result }
    ensures room { HasRoomInAll redo.new }
{
    let outcome = kill(held.loaded(), rules, user, number);
    decide_short(held, redo, outcome)
}
