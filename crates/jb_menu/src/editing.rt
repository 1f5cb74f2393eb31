//! A message that is edited, up to its text.
ghost use Rattle.std.specs.Prelude.{◌≡◌, ◌<◌, IfOk, length};
ghost use Rattle.jb_menu.specs.Editing.{chosen_subject, edit_asked, edit_subject_row, peeking_row};

use crate::Given;
use crate::lines::{fault_to_area, fixed_line, passed_over, reply_to_area, say};
use crate::moves::Moved;
use crate::state::{Composing, MenuStage, State, Visit};
use jb_base::{Bytes, OutOfMemory};
use jb_conf::Board;
use jb_model::{Letter, Reply};
use jb_text::{Fixed, fixed};
use std::alloc::Global;

/// Asks for another subject of a message, and keeps the one that it has.
fn edit_asked(alloc: Global, visit: Visit, message: &Letter) -> Result<Moved, OutOfMemory>
    ensures { IfOk result (λ moved. moved ≡ edit_asked visit message.now) }
{
    let text = fixed(alloc, Fixed::AskEdit)?;
    let number = message.number;
    let subject = Bytes::copy(alloc, message.subject.as_slice())?;
    let stage = MenuStage::EditSubject { number, subject };
    Ok(say(text, State::Area { visit, stage }))
}

/// Waits for the message that is to be edited.
pub fn peeking(
    alloc: Global,
    board: &Board,
    visit: Visit,
    given: &Given,
) -> Result<Moved, OutOfMemory>
    requires { visit.area < length board.now.areas }
    ensures { IfOk result (λ moved. moved ≡ peeking_row board.now visit given.now) }
{
    match given {
        Given::Reply(Reply::Text { letter }) => edit_asked(alloc, visit, letter),
        Given::Reply(refusal) => reply_to_area(alloc, board, visit, refusal),
        Given::Fault(why) => fault_to_area(alloc, board, visit, why),
        _ => {
            let stage = MenuStage::Peeking;
            Ok(passed_over(alloc, State::Area { visit, stage }))
        }
    }
}

/// The subject that is typed, or the one that the message has, where nothing is typed.
fn chosen_subject(alloc: Global, typed: &[u8], subject: Bytes) -> Result<Bytes, OutOfMemory>
    ensures { IfOk result (λ chosen. chosen ≡ chosen_subject typed.now subject) }
{
    if typed.is_empty() {
        Ok(subject)
    } else {
        Bytes::copy(alloc, typed)
    }
}

/// Waits for another subject of the message with this number, which has this one.
pub fn edit_subject(
    alloc: Global,
    visit: Visit,
    number: u32,
    subject: Bytes,
    given: &Given,
) -> Result<Moved, OutOfMemory>
    ensures { IfOk result (λ moved. moved ≡ edit_subject_row visit number subject given.now) }
{
    match given {
        Given::Line(line) => {
            let said = fixed_line(alloc, Fixed::TextLine)?;
            let subject = chosen_subject(alloc, line.as_slice(), subject)?;
            let draft = Composing::Edit { number, subject };
            let text = Bytes::new(alloc);
            let stage = MenuStage::Text { draft, text };
            Ok(say(said, State::Area { visit, stage }))
        }
        _ => {
            let stage = MenuStage::EditSubject { number, subject };
            Ok(passed_over(alloc, State::Area { visit, stage }))
        }
    }
}
