//! A message is read, or looked at.
ghost use Rattle.std.specs.Prelude.{ℕ, List, IfOk, None};
ghost use Rattle.std.specs.Option.{ForSome};
ghost use Rattle.jb_change.specs.Ready.{HasRoomInAll};
ghost use Rattle.jb_disk.specs.RedoView.{RedoView};
ghost use Rattle.jb_disk.specs.Device.{OnlyReads, CountsFaults};
ghost use Rattle.jb_disk.specs.declared.file.FileId.TheVariants.{Jdt as texts_file};
ghost use Rattle.jb_state.specs.Change.{HasMessageAt};
ghost use Rattle.jb_state.specs.Loaded.{IsMessageAt};
ghost use Rattle.jb_model.specs.declared.command.Command.TheVariants.{Peek, Read};
ghost use Rattle.jb_state.specs.declared.loaded.Loaded.{Loaded};
ghost use Rattle.jb_state.specs.declared.loaded.LoadedMessage.{LoadedMessage};
ghost use Rattle.jb_decide.specs.Decided.{IsDecided, IsKeptFor};
ghost use Rattle.jb_decide.specs.Errors.{is_area_fault};
ghost use Rattle.jb_decide.specs.Holds.{AreTexts, Holds};

use crate::AreaError;
use crate::decided::Decided;
use crate::deciding::decide_short;
use crate::letters::letter;
use crate::outcome::Outcome;
use crate::reads::{peek, read};
use crate::texts::read_text;
use jb_base::{AreaRules, User};
use jb_disk::{Disk, Redo};
use jb_held::HeldArea;
use jb_model::Reply;
use jb_state::{Change, Loaded, LoadedMessage, LoadedSlot};
use std::alloc::Global;

/// The live message at a place.
fn message_at(loaded: &Loaded, place: usize) -> &LoadedMessage
    requires { HasMessageAt place loaded.now }
    ensures { IsMessageAt loaded.now place result.now }
{
    let Some(LoadedSlot::Live(message)) = loaded.slots.as_slice().get(place) else {
        unreachable!()
    };
    message
}

/// What a reading comes to. One device read, and none where the text is empty.
pub fn decide_read<D: Disk>(
    alloc: Global,
    disk: &mut D,
    held: &HeldArea,
    rules: &AreaRules,
    redo: &mut Redo,
    user: &User,
    moment: u32,
    number: u32,
) -> Result<Decided, AreaError>
    requires kept { IsKeptFor rules.now held.now }
    requires room { HasRoomInAll redo.old }
    requires holds { ForSome (D.device disk.old).contents (λ files. Holds held.now (files texts_file) files) }
    ensures decided { IfOk result (λ decided. (texts : List ℕ)
        → AreTexts held.now texts (D.device disk.old).contents
        → IsDecided rules.now held.now texts
        (D.device disk.old).contents None redo.new user.now moment (Read number) decided) }
    ensures room { HasRoomInAll redo.new }

    // The disk is only read.
    ensures reads { OnlyReads (D.device disk.old) (D.device disk.new) }
    ensures faults { CountsFaults is_area_fault (D.device disk.old) (D.device disk.new) result }
{
    let loaded = held.loaded();
    match read(loaded, rules, user, moment, number) {
        Err(reply) => Ok(Decided::unchanged(reply)),
        Ok(at) => {
            let message = message_at(loaded, at.place);
            let text = read_text(alloc, disk, message)?;
            let shown = letter(alloc, number, at.head, message, text)?;
            let outcome = Outcome {
                reply: Reply::Text { letter: shown },
                change: Change::Headed { at },
            };
            Ok(decide_short(held, redo, outcome))
        }
    }
}

/// What a look comes to. One device read, and none where the text is empty.
pub fn decide_peek<D: Disk>(
    alloc: Global,
    disk: &mut D,
    held: &HeldArea,
    rules: &AreaRules,
    user: &User,
    number: u32,
) -> Result<Decided, AreaError>
    requires kept { IsKeptFor rules.now held.now }
    requires holds { ForSome (D.device disk.old).contents (λ files. Holds held.now (files texts_file) files) }
    ensures decided { IfOk result (λ decided. (moment : ℕ) (redo : RedoView) (texts : List ℕ)
        → AreTexts held.now texts (D.device disk.old).contents
        → IsDecided rules.now held.now texts (D.device disk.old).contents None redo user.now moment
        (Peek number) decided) }

    // The disk is only read.
    ensures reads { OnlyReads (D.device disk.old) (D.device disk.new) }
    ensures faults { CountsFaults is_area_fault (D.device disk.old) (D.device disk.new) result }
{
    let loaded = held.loaded();
    match peek(loaded, rules, user, number) {
        Err(reply) => Ok(Decided::unchanged(reply)),
        Ok(place) => {
            let message = message_at(loaded, place);
            let text = read_text(alloc, disk, message)?;
            let shown = letter(alloc, number, message.head, message, text)?;
            Ok(Decided::unchanged(Reply::Text { letter: shown }))
        }
    }
}
