//! `GROUP` and `LISTGROUP`: a group is chosen.
ghost use Rattle.std.specs.Prelude.{◌≡◌, ◌<◌, IfOk, length};
ghost use Rattle.jb_news_talk.specs.Turns.{first_number};
ghost use Rattle.jb_news_talk.specs.Choosing.{chooses, chooses_again, choosing_row, entering_row, enters};

use crate::newsgroups::number_of;
use crate::place::{Chosen, NewsStage, Told};
use crate::telling::{begin, has_numbers};
use crate::turn::{NewsTurn, answer, ask, listing, respond};
use jb_base::OutOfMemory;
use jb_conf::Board;
use jb_menu::Given;
use jb_news::{FixedResponse, MOST_ARTICLE, NumberRange, append_end, chosen as chosen_text};
use jb_speech::Act;
use jb_state::{Answer, Figures, Question, Summary};
use std::alloc::Global;

/// Asks for the figures of a group, where there is one.
pub(crate) fn choose(
    alloc: Global,
    chosen: Chosen,
    range: Option<NumberRange>,
    group: Option<u32>,
) -> Result<NewsTurn, OutOfMemory>
    ensures { IfOk result (λ turn. turn ≡ chooses chosen range group) }
{
    match group {
        None => respond(alloc, chosen, FixedResponse::NoSuchGroup),
        Some(area) => {
            let stage = NewsStage::Choosing { area, range };
            Ok(ask(alloc, chosen, stage, area, Act::Look(Question::Figures)))
        }
    }
}

/// The same of the group that is chosen.
pub(crate) fn choose_again(
    alloc: Global,
    chosen: Chosen,
    range: NumberRange,
) -> Result<NewsTurn, OutOfMemory>
    ensures { IfOk result (λ turn. turn ≡ chooses_again chosen range chosen.group) }
{
    match chosen.group {
        None => respond(alloc, chosen, FixedResponse::NoGroup),
        Some(area) => choose(alloc, chosen, Some(range), Some(area)),
    }
}

/// Takes the figures of the group, and asks for its first message.
pub(crate) fn choosing(
    alloc: Global,
    chosen: Chosen,
    area: u32,
    range: Option<NumberRange>,
    given: &Given,
) -> Result<NewsTurn, OutOfMemory>
    ensures { IfOk result (λ turn. turn ≡ choosing_row chosen area range given.now) }
{
    match given {
        Given::Answer(Answer::Figures(figures)) if figures.next <= MOST_ARTICLE => {
            let stage = NewsStage::Entering {
                area,
                range,
                figures: *figures,
            };
            Ok(ask(alloc, chosen, stage, area, listing(0, 1)))
        }
        Given::Answer(Answer::Figures(_)) => respond(alloc, chosen, FixedResponse::NoSuchGroup),
        _ => respond(alloc, chosen, FixedResponse::Fault),
    }
}

/// The number of the first of these messages.
pub(crate) fn first_number(messages: &[Summary]) -> Option<u32>
    ensures { result ≡ first_number messages.now }
{
    match messages.first() {
        Some(one) => Some(one.number),
        None => None,
    }
}

/// Enters a group, whose first message has this number.
fn enter(
    alloc: Global,
    board: &Board,
    chosen: Chosen,
    area: u32,
    range: Option<NumberRange>,
    figures: &Figures,
    first: Option<u32>,
) -> Result<NewsTurn, OutOfMemory>
    requires { area < length board.now.areas }
    ensures { IfOk result (λ turn. turn ≡ enters board.now chosen area range figures.now first) }
{
    let mut text = chosen_text(alloc, number_of(board, area), figures)?;
    let then = Chosen {
        group: Some(area),
        current: first,
    };
    match range {
        None => Ok(answer(then, text)),
        Some(range) if has_numbers(range) => {
            Ok(begin(alloc, chosen, Told::Numbers(first), area, range, text))
        }
        Some(_) => {
            append_end(&mut text)?;
            Ok(answer(then, text))
        }
    }
}

/// Takes the first message of the group.
pub(crate) fn entering(
    alloc: Global,
    board: &Board,
    chosen: Chosen,
    area: u32,
    range: Option<NumberRange>,
    figures: &Figures,
    given: &Given,
) -> Result<NewsTurn, OutOfMemory>
    requires { area < length board.now.areas }
    ensures { IfOk result (λ turn. turn ≡ entering_row board.now chosen area range figures.now given.now) }
{
    match given {
        Given::Answer(Answer::Summaries(messages)) => {
            let first = first_number(messages.as_slice());
            enter(alloc, board, chosen, area, range, figures, first)
        }
        _ => respond(alloc, chosen, FixedResponse::Fault),
    }
}
