//! What each command leads to.
ghost use Rattle.std.specs.Prelude.{◌≡◌, ◌++◌, IfOk};
ghost use Rattle.jb_news_talk.specs.Commands.{command_row, quits};
ghost use Rattle.jb_news.specs.declared.command.NewsCommand.{NewsCommand};

use crate::articles::show;
use crate::choosing::{choose, choose_again};
use crate::listing::list_next;
use crate::moving::{last, next};
use crate::newsgroups::{append_named_lines, group_of, next_group};
use crate::place::{Chosen, NewsPlace, NewsStage};
use crate::telling::over;
use crate::turn::{NewsTurn, answer, ask_clock, respond};
use jb_base::OutOfMemory;
use jb_conf::Board;
use jb_news::{FixedResponse, LineText, NewsCommand, append_end, response};
use std::alloc::Global;

/// The list of the groups that a wildmat takes, with their figures.
fn list_active(
    alloc: Global,
    board: &Board,
    chosen: Chosen,
    wildmat: Option<LineText>,
) -> Result<NewsTurn, OutOfMemory>
    ensures { IfOk result (λ turn. turn ≡ command_row board.now chosen (NewsCommand.ListActive wildmat)) }
{
    let next = next_group(alloc, board, &wildmat, 0)?;
    let text = response(alloc, FixedResponse::Groups)?;
    list_next(alloc, chosen, wildmat, next, text)
}

/// The names of the groups that a wildmat takes.
fn list_names(
    alloc: Global,
    board: &Board,
    chosen: Chosen,
    wildmat: &Option<LineText>,
) -> Result<NewsTurn, OutOfMemory>
    ensures { IfOk result (λ turn. turn ≡ command_row board.now chosen (NewsCommand.ListNewsgroups wildmat.now)) }
{
    let mut text = response(alloc, FixedResponse::Groups)?;
    append_named_lines(alloc, &mut text, board, wildmat)?;
    append_end(&mut text)?;
    Ok(answer(chosen, text))
}

/// Says goodbye.
fn quit(alloc: Global, chosen: Chosen) -> Result<NewsTurn, OutOfMemory>
    ensures { IfOk result (λ turn. turn ≡ quits chosen) }
{
    Ok(NewsTurn {
        place: NewsPlace {
            chosen,
            stage: NewsStage::Over,
        },
        text: response(alloc, FixedResponse::Bye)?,
        request: None,
    })
}

/// Does a command.
pub(crate) fn command(
    alloc: Global,
    board: &Board,
    chosen: Chosen,
    command: NewsCommand,
) -> Result<NewsTurn, OutOfMemory>
    ensures { IfOk result (λ turn. turn ≡ command_row board.now chosen command) }
{
    match command {
        NewsCommand::Capabilities => respond(alloc, chosen, FixedResponse::Capabilities),
        NewsCommand::ModeReader => respond(alloc, chosen, FixedResponse::NoPosting),
        NewsCommand::Help => respond(alloc, chosen, FixedResponse::Help),
        NewsCommand::Quit => quit(alloc, chosen),
        NewsCommand::ListActive(wildmat) => list_active(alloc, board, chosen, wildmat),
        NewsCommand::ListNewsgroups(wildmat) => list_names(alloc, board, chosen, &wildmat),
        NewsCommand::ListOverviewFormat => respond(alloc, chosen, FixedResponse::OverviewFormat),
        NewsCommand::ListNotKept => respond(alloc, chosen, FixedResponse::NotKept),
        NewsCommand::Group(name) => choose(alloc, chosen, None, group_of(board, name)),
        NewsCommand::Listgroup(None, range) => choose_again(alloc, chosen, range),
        NewsCommand::Listgroup(Some(name), range) => {
            choose(alloc, chosen, Some(range), group_of(board, name))
        }
        NewsCommand::Next => next(alloc, chosen),
        NewsCommand::Last => last(alloc, chosen),
        NewsCommand::Over(target) => over(alloc, chosen, target),
        NewsCommand::Date => Ok(ask_clock(alloc, chosen)),
        NewsCommand::Newgroups => respond(alloc, chosen, FixedResponse::NewGroups),
        NewsCommand::Post => respond(alloc, chosen, FixedResponse::NotPosted),
        NewsCommand::Show(part, target) => show(alloc, board, chosen, part, target),
        NewsCommand::Syntax => respond(alloc, chosen, FixedResponse::Syntax),
        NewsCommand::Unknown => respond(alloc, chosen, FixedResponse::Unknown),
    }
}
