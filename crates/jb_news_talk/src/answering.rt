//! What each answer of an area leads to.
ghost use Rattle.std.specs.Prelude.{◌≡◌, IfOk};
ghost use Rattle.jb_news_talk.specs.Conversations.{given_in, stays};
ghost use Rattle.jb_news_talk.specs.Reading.{IsStageOn};
ghost use Rattle.jb_news_talk.specs.Commands.{dating_row};

use crate::articles::showing;
use crate::choosing::{choosing, entering};
use crate::listing::listing;
use crate::moving::{following, seeking};
use crate::place::{Chosen, NewsPlace, NewsStage};
use crate::telling::telling;
use crate::turn::{NewsTurn, answer, respond};
use jb_base::{Bytes, OutOfMemory};
use jb_conf::Board;
use jb_menu::Given;
use jb_news::{FixedResponse, clock};
use std::alloc::Global;

/// Nothing is sent and asked.
fn stay(alloc: Global, place: NewsPlace) -> NewsTurn
    ensures { result ≡ stays place }
{
    NewsTurn {
        place,
        text: Bytes::new(alloc),
        request: None,
    }
}

/// Takes the moment that the clock shows.
fn dating(alloc: Global, chosen: Chosen, given: &Given) -> Result<NewsTurn, OutOfMemory>
    ensures { IfOk result (λ turn. turn ≡ dating_row chosen given.now) }
{
    match given {
        Given::Moment(moment) => Ok(answer(chosen, clock(alloc, *moment)?)),
        _ => respond(alloc, chosen, FixedResponse::Fault),
    }
}

/// Takes an answer at a stage. What was not asked for leads to nothing where nothing is awaited, and else is a fault.
#[tactic(auto, unfolding(crate::specs::Conversations::given_in))]
pub(crate) fn answered(
    alloc: Global,
    board: &Board,
    chosen: Chosen,
    stage: NewsStage,
    given: &Given,
) -> Result<NewsTurn, OutOfMemory>
    requires { IsStageOn board.now stage }
    ensures { IfOk result (λ turn. turn ≡ given_in board.now chosen stage given.now) }
{
    match stage {
        NewsStage::Listing {
            wildmat,
            area,
            text,
        } => listing(alloc, board, chosen, wildmat, area, text, given),
        NewsStage::Choosing { area, range } => choosing(alloc, chosen, area, range, given),
        NewsStage::Entering {
            area,
            range,
            figures,
        } => entering(alloc, board, chosen, area, range, &figures, given),
        NewsStage::Telling {
            told,
            area,
            next,
            last,
            head,
        } => telling(alloc, board, chosen, told, area, next, last, head, given),
        NewsStage::Following { area } => following(alloc, board, chosen, area, given),
        NewsStage::Seeking { area, found, top } => {
            seeking(alloc, board, chosen, area, found, top, given)
        }
        NewsStage::Showing {
            part,
            area,
            number,
            how,
        } => showing(alloc, board, chosen, part, area, number, how, given),
        NewsStage::Dating => dating(alloc, chosen, given),
        NewsStage::Idle | NewsStage::Over | NewsStage::Broken => {
            Ok(stay(alloc, NewsPlace { chosen, stage }))
        }
    }
}
