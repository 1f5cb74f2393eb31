//! `NEXT` and `LAST`: the current article moves.
ghost use Rattle.std.specs.Prelude.{◌≡◌, ◌<◌, ◌≤◌, IfOk, IfSome, length};
ghost use Rattle.jb_news_talk.specs.Moving.{following, following_row, follows, last_from, last_in, middle, moves_to, narrows, next_from, next_in, seeking_row, seeks};

use crate::choosing::first_number;
use crate::newsgroups::number_of;
use crate::place::{Chosen, NewsStage};
use crate::turn::{NewsTurn, answer, ask, listing, respond};
use jb_base::OutOfMemory;
use jb_conf::Board;
use jb_menu::Given;
use jb_news::{FixedResponse, MOST_ARTICLE, Part, article};
use jb_state::Answer;
use std::alloc::Global;

/// Asks for the first message behind the current one.
pub(crate) fn next(alloc: Global, chosen: Chosen) -> Result<NewsTurn, OutOfMemory>
    ensures { IfOk result (λ turn. turn ≡ next_in chosen chosen.group) }
{
    match (chosen.group, chosen.current) {
        (None, _) => respond(alloc, chosen, FixedResponse::NoGroup),
        (_, None) => respond(alloc, chosen, FixedResponse::NoCurrent),
        (Some(area), Some(number)) => {
            let act = listing(number.saturating_add(1), 1);
            Ok(ask(alloc, chosen, NewsStage::Following { area }, area, act))
        }
    }
}

/// Makes an article the current one.
fn move_to(
    alloc: Global,
    board: &Board,
    chosen: Chosen,
    area: u32,
    number: u32,
) -> Result<NewsTurn, OutOfMemory>
    requires { area < length board.now.areas }
    ensures { IfOk result (λ turn. turn ≡ moves_to board.now chosen area number) }
{
    let text = article(alloc, Part::Stat, number, number_of(board, area), number)?;
    let then = Chosen {
        group: chosen.group,
        current: Some(number),
    };
    Ok(answer(then, text))
}

/// Takes the first message behind the current one.
pub(crate) fn following(
    alloc: Global,
    board: &Board,
    chosen: Chosen,
    area: u32,
    given: &Given,
) -> Result<NewsTurn, OutOfMemory>
    requires { area < length board.now.areas }
    ensures { IfOk result (λ turn. turn ≡ following_row board.now chosen area given.now) }
{
    match given {
        Given::Answer(Answer::Summaries(messages)) => match first_number(messages.as_slice()) {
            Some(number) if number <= MOST_ARTICLE => {
                move_to(alloc, board, chosen, area, number)
            }
            _ => respond(alloc, chosen, FixedResponse::NoNext),
        },
        _ => respond(alloc, chosen, FixedResponse::Fault),
    }
}

/// Asks for the last message before the current one: first, whether there is any.
pub(crate) fn last(alloc: Global, chosen: Chosen) -> Result<NewsTurn, OutOfMemory>
    ensures { IfOk result (λ turn. turn ≡ last_in chosen chosen.group) }
{
    match (chosen.group, chosen.current) {
        (None, _) => respond(alloc, chosen, FixedResponse::NoGroup),
        (_, None) => respond(alloc, chosen, FixedResponse::NoCurrent),
        (Some(area), Some(top)) => {
            let stage = NewsStage::Seeking {
                area,
                found: None,
                top,
            };
            Ok(ask(alloc, chosen, stage, area, listing(0, 1)))
        }
    }
}

/// The middle of two numbers.
fn middle(low: u32, high: u32) -> u32
    requires { low ≤ high }
    ensures { result ≡ middle low high }
{
    low + (high - low) / 2
}

/// Asks whether there is a message in the upper half between one that was found and a number, or has found the last.
fn narrow(
    alloc: Global,
    board: &Board,
    chosen: Chosen,
    area: u32,
    found: u32,
    top: u32,
) -> Result<NewsTurn, OutOfMemory>
    requires { area < length board.now.areas }
    ensures { IfOk result (λ turn. turn ≡ narrows board.now chosen area found top) }
{
    if top <= found || top - found == 1 {
        return move_to(alloc, board, chosen, area, found);
    }
    let act = listing(middle(found, top), 1);
    let stage = NewsStage::Seeking {
        area,
        found: Some(found),
        top,
    };
    Ok(ask(alloc, chosen, stage, area, act))
}

/// Goes on with the first message of a part, where there is one.
fn seek(
    alloc: Global,
    board: &Board,
    chosen: Chosen,
    area: u32,
    found: Option<u32>,
    top: u32,
    first: Option<u32>,
) -> Result<NewsTurn, OutOfMemory>
    requires area { area < length board.now.areas }
    requires order { IfSome found (λ low. low ≤ top) }
    ensures { IfOk result (λ turn. turn ≡ seeks board.now chosen area found top first) }
{
    match (found, first) {
        (None, Some(number)) if number < top => { narrow(alloc, board, chosen, area, number, top) }
        (None, _) => respond(alloc, chosen, FixedResponse::NoPrevious),
        (Some(low), Some(number)) if middle(low, top) <= number && number < top => {
            narrow(alloc, board, chosen, area, number, top)
        }
        (Some(low), _) => narrow(alloc, board, chosen, area, low, middle(low, top)),
    }
}

/// Takes the first message of a part.
pub(crate) fn seeking(
    alloc: Global,
    board: &Board,
    chosen: Chosen,
    area: u32,
    found: Option<u32>,
    top: u32,
    given: &Given,
) -> Result<NewsTurn, OutOfMemory>
    requires area { area < length board.now.areas }
    requires order { IfSome found (λ low. low ≤ top) }
    ensures { IfOk result (λ turn. turn ≡ seeking_row board.now chosen area found top given.now) }
{
    match given {
        Given::Answer(Answer::Summaries(messages)) => {
            let first = first_number(messages.as_slice());
            seek(alloc, board, chosen, area, found, top, first)
        }
        _ => respond(alloc, chosen, FixedResponse::Fault),
    }
}
