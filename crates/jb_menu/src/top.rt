//! Outside of the areas.
ghost use Rattle.std.specs.Prelude.{◌≡◌, ◌<◌, IfOk, length};
ghost use Rattle.jb_menu.specs.Top.{count_row, counting_row, enter_row, entering_row, top_command, top_row};

use crate::Given;
use crate::board::{area_named, counted_text, next_area};
use crate::command_line::{CommandLetter, CommandLine, command_of};
use crate::lines::{
    append_line, fault_line, fixed_to_top, passed_over, quit, to_area, to_top, whole,
};
use crate::moves::{Move, Moved};
use crate::pages::{take_pages, write_page};
use crate::state::{At, State, Visit};
use jb_base::{Bytes, OutOfMemory};
use jb_conf::Board;
use jb_state::{Answer, Question};
use jb_text::{Fixed, fault, figures};
use std::alloc::Global;

/// Counts the next area, behind these lines, or says them.
fn count(alloc: Global, user: u32, lines: Bytes, next: Option<u32>) -> Result<Moved, OutOfMemory>
    ensures { IfOk result (λ moved. moved ≡ count_row user lines next) }
{
    match next {
        Some(area) => Ok(Moved {
            step: Move::Count { area },
            state: State::Counting { user, area, lines },
        }),
        None => to_top(alloc, user, lines),
    }
}

/// Enters an area, where there is one.
fn enter(alloc: Global, user: u32, area: Option<u32>) -> Result<Moved, OutOfMemory>
    ensures { IfOk result (λ moved. moved ≡ enter_row user area) }
{
    match area {
        Some(area) => {
            let question = Question::Figures;
            Ok(Moved {
                step: Move::Look { area, question },
                state: State::Entering { user, area },
            })
        }
        None => fixed_to_top(alloc, user, Fixed::NoSuchArea),
    }
}

/// A command outside of the areas.
fn command(alloc: Global, board: &Board, user: u32, line: CommandLine) -> Result<Moved, OutOfMemory>
    requires user { user < length board.now.users }
    ensures { IfOk result (λ moved. moved ≡ top_command board.now user line) }
{
    match line {
        CommandLine::Empty => to_top(alloc, user, Bytes::new(alloc)),
        CommandLine::Letter(CommandLetter::A) => {
            count(alloc, user, Bytes::new(alloc), next_area(board, user, 0))
        }
        CommandLine::Letter(CommandLetter::G) => Ok(take_pages(alloc, At::Top { user })),
        CommandLine::Letter(CommandLetter::Q) => quit(alloc),
        CommandLine::LetterNumber(CommandLetter::S, number) => {
            write_page(alloc, board, At::Top { user }, number)
        }
        CommandLine::Number(number) => enter(alloc, user, area_named(board, user, number)),
        _ => fixed_to_top(alloc, user, Fixed::UnknownCommand),
    }
}

/// Waits for a command outside of the areas.
pub fn top(alloc: Global, board: &Board, user: u32, given: &Given) -> Result<Moved, OutOfMemory>
    requires user { user < length board.now.users }
    ensures { IfOk result (λ moved. moved ≡ top_row board.now user given.now) }
{
    match given {
        Given::Line(line) => command(alloc, board, user, command_of(line.as_slice())),
        _ => Ok(passed_over(alloc, State::Top { user })),
    }
}

/// Waits for how much of an area is unread, behind the lines of the areas before it.
pub fn counting(
    alloc: Global,
    board: &Board,
    user: u32,
    area: u32,
    lines: Bytes,
    given: &Given,
) -> Result<Moved, OutOfMemory>
    requires user { user < length board.now.users }
    requires area { area < length board.now.areas }
    ensures { IfOk result (λ moved. moved ≡ counting_row board.now user area lines given.now) }
{
    match given {
        Given::Count(unread) => {
            let one = counted_text(alloc, board, area, *unread)?;
            let lines = append_line(lines, one.as_slice())?;
            count(alloc, user, lines, next_area(board, user, area + 1))
        }
        Given::Fault(why) => {
            let one = fault(alloc, why)?;
            to_top(alloc, user, append_line(lines, one.as_slice())?)
        }
        _ => Ok(passed_over(alloc, State::Counting { user, area, lines })),
    }
}

/// Waits for the figures of the area that the user enters.
pub fn entering(
    alloc: Global,
    board: &Board,
    user: u32,
    area: u32,
    given: &Given,
) -> Result<Moved, OutOfMemory>
    requires { area < length board.now.areas }
    ensures { IfOk result (λ moved. moved ≡ entering_row board.now user area given.now) }
{
    match given {
        Given::Answer(Answer::Figures(numbers)) => {
            let visit = Visit {
                user,
                area,
                shown: None,
            };
            let lines = whole(figures(alloc, numbers.visible, numbers.unread)?)?;
            to_area(alloc, board, visit, lines)
        }
        Given::Fault(why) => to_top(alloc, user, fault_line(alloc, why)?),
        _ => Ok(passed_over(alloc, State::Entering { user, area })),
    }
}
