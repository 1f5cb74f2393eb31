//! `LIST ACTIVE`: the groups with their figures, one after another.
ghost use Rattle.std.specs.Prelude.{◌≡◌, ◌<◌, ◌≤◌, ◌++◌, IfOk, IfSome, OnOk, length};
ghost use Rattle.jb_news_talk.specs.Listing.{listed_line, listing_row, lists_next};

use crate::newsgroups::{next_group, number_of};
use crate::place::{Chosen, NewsStage};
use crate::turn::{NewsTurn, answer, ask, respond};
use jb_base::{Bytes, OutOfMemory};
use jb_conf::Board;
use jb_menu::Given;
use jb_news::{FixedResponse, LineText, MOST_ARTICLE, append_active, append_end};
use jb_speech::Act;
use jb_state::{Answer, Figures, Question};
use std::alloc::Global;

/// Asks for the figures of the next group, or ends the list.
pub(crate) fn list_next(
    alloc: Global,
    chosen: Chosen,
    wildmat: Option<LineText>,
    next: Option<u32>,
    text: Bytes,
) -> Result<NewsTurn, OutOfMemory>
    ensures { IfOk result (λ turn. turn ≡ lists_next chosen wildmat next text) }
{
    let mut text = text;
    match next {
        None => {
            append_end(&mut text)?;
            Ok(answer(chosen, text))
        }
        Some(area) => {
            let stage = NewsStage::Listing {
                wildmat,
                area,
                text,
            };
            Ok(ask(alloc, chosen, stage, area, Act::Look(Question::Figures)))
        }
    }
}

/// Puts the line of a group behind a text, where its numbers all have their place.
fn append_listed_line(
    text: &mut Bytes,
    board: &Board,
    area: u32,
    figures: &Figures,
) -> Result<(), OutOfMemory>
    requires { area < length board.now.areas }
    ensures { OnOk result (text.new ≡ text.old ++ listed_line board.now area figures.now) }
{
    if figures.next > MOST_ARTICLE {
        return Ok(());
    }
    append_active(text, number_of(board, area), figures)
}

/// Takes the figures of a group of the list.
pub(crate) fn listing(
    alloc: Global,
    board: &Board,
    chosen: Chosen,
    wildmat: Option<LineText>,
    area: u32,
    text: Bytes,
    given: &Given,
) -> Result<NewsTurn, OutOfMemory>
    requires { area < length board.now.areas }
    ensures { IfOk result (λ turn. turn ≡ listing_row board.now chosen wildmat area text given.now) }
{
    let mut text = text;
    match given {
        Given::Answer(Answer::Figures(figures)) => {
            append_listed_line(&mut text, board, area, figures)?;
            let next = next_group(alloc, board, &wildmat, area + 1)?;
            list_next(alloc, chosen, wildmat, next, text)
        }
        _ => respond(alloc, chosen, FixedResponse::Fault),
    }
}
