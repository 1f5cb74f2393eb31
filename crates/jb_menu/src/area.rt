//! The commands of an area.
ghost use Rattle.std.specs.Prelude.{◌≡◌, ◌<◌, IfOk, length};
ghost use Rattle.jb_menu.specs.Areas.{area_command, area_row};
ghost use Rattle.jb_menu.specs.Says.{ask, look};

use crate::Given;
use crate::command_line::{CommandLetter, CommandLine, command_of};
use crate::lines::{fixed_to_area, passed_over, quit, say, to_area, to_top};
use crate::moves::{Move, Moved};
use crate::pages::{take_pages, write_page};
use crate::state::{At, MenuStage, State, Visit};
use crate::writing::reply;
use jb_base::{Bytes, OutOfMemory};
use jb_conf::Board;
use jb_model::Command;
use jb_state::Question;
use jb_text::{Fixed, fixed};
use std::alloc::Global;

/// Messages of a list.
const MOST_LISTED: u32 = 20;
/// Messages of a thread.
const MOST_OF_THREAD: u32 = 100;

/// Asks the area to do this.
pub fn ask(visit: Visit, command: Command, stage: MenuStage) -> Moved
    ensures { result ≡ ask visit command stage }
{
    let area = visit.area;
    Moved {
        step: Move::Ask { area, command },
        state: State::Area { visit, stage },
    }
}

/// Asks the area this.
fn look(visit: Visit, question: Question, stage: MenuStage) -> Moved
    ensures { result ≡ look visit question stage }
{
    let area = visit.area;
    Moved {
        step: Move::Look { area, question },
        state: State::Area { visit, stage },
    }
}

/// A command of an area.
fn command(
    alloc: Global,
    board: &Board,
    visit: Visit,
    line: CommandLine,
) -> Result<Moved, OutOfMemory>
    requires { visit.area < length board.now.areas }
    ensures { IfOk result (λ moved. moved ≡ area_command board.now visit line) }
{
    match line {
        CommandLine::Empty => to_area(alloc, board, visit, Bytes::new(alloc)),
        CommandLine::Number(number) => {
            let stage = MenuStage::Reading { marks: false };
            Ok(ask(visit, Command::Read { number }, stage))
        }
        CommandLine::Letter(letter) => letter_alone(alloc, board, visit, letter),
        CommandLine::LetterNumber(letter, number) => {
            letter_and_number(alloc, board, visit, letter, number)
        }
        CommandLine::Unknown => fixed_to_area(alloc, board, visit, Fixed::UnknownCommand),
    }
}

/// A command that is a letter.
fn letter_alone(
    alloc: Global,
    board: &Board,
    visit: Visit,
    letter: CommandLetter,
) -> Result<Moved, OutOfMemory>
    requires { visit.area < length board.now.areas }
    ensures { IfOk result (λ moved. moved ≡ area_command board.now visit (CommandLine.Letter letter)) }
{
    match letter {
        CommandLetter::B => to_top(alloc, visit.user, Bytes::new(alloc)),
        CommandLetter::G => Ok(take_pages(alloc, At::Area { visit })),
        CommandLetter::L => Ok(list(visit, 0)),
        CommandLetter::N => {
            let question = Question::Unread { from: 0, most: 1 };
            Ok(look(visit, question, MenuStage::Seeking))
        }
        CommandLetter::P => {
            let text = fixed(alloc, Fixed::AskTo)?;
            let stage = MenuStage::To;
            Ok(say(text, State::Area { visit, stage }))
        }
        CommandLetter::Q => quit(alloc),
        CommandLetter::R => reply(alloc, board, visit),
        CommandLetter::X => Ok(ask(visit, Command::Pack, MenuStage::Acting)),
        CommandLetter::Y => Ok(list_to(visit, 0)),
        CommandLetter::Z => Ok(ask(visit, Command::Relink, MenuStage::Acting)),
        _ => fixed_to_area(alloc, board, visit, Fixed::UnknownCommand),
    }
}

/// A command that is a letter and a number.
fn letter_and_number(
    alloc: Global,
    board: &Board,
    visit: Visit,
    letter: CommandLetter,
    number: u32,
) -> Result<Moved, OutOfMemory>
    requires { visit.area < length board.now.areas }
    ensures { IfOk result (λ moved. moved
        ≡ area_command board.now visit (CommandLine.LetterNumber letter number)) }
{
    match letter {
        CommandLetter::E => Ok(ask(visit, Command::Peek { number }, MenuStage::Peeking)),
        CommandLetter::K => Ok(ask(visit, Command::Kill { number }, MenuStage::Acting)),
        CommandLetter::L => Ok(list(visit, number)),
        CommandLetter::M => Ok(ask(visit, Command::SetMark { number }, MenuStage::Acting)),
        CommandLetter::S => write_page(alloc, board, At::Area { visit }, number),
        CommandLetter::T => {
            let most = MOST_OF_THREAD;
            Ok(look(visit, Question::Thread { number, most }, MenuStage::Listing))
        }
        CommandLetter::Y => Ok(list_to(visit, number)),
        _ => fixed_to_area(alloc, board, visit, Fixed::UnknownCommand),
    }
}

/// Lists the messages from a number on.
fn list(visit: Visit, from: u32) -> Moved
    ensures { result ≡ look visit (Question.List from 20) MenuStage.Listing }
{
    let most = MOST_LISTED;
    look(visit, Question::List { from, most }, MenuStage::Listing)
}

/// Lists the messages to the user from a number on.
fn list_to(visit: Visit, from: u32) -> Moved
    ensures { result ≡ look visit (Question.To from 20) MenuStage.Listing }
{
    let most = MOST_LISTED;
    look(visit, Question::To { from, most }, MenuStage::Listing)
}

/// Waits for a command of an area.
pub fn prompted(
    alloc: Global,
    board: &Board,
    visit: Visit,
    given: &Given,
) -> Result<Moved, OutOfMemory>
    requires { visit.area < length board.now.areas }
    ensures { IfOk result (λ moved. moved ≡ area_row board.now visit given.now) }
{
    match given {
        Given::Line(line) => command(alloc, board, visit, command_of(line.as_slice())),
        _ => {
            let stage = MenuStage::Prompt;
            Ok(passed_over(alloc, State::Area { visit, stage }))
        }
    }
}
