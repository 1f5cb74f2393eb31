//! What a line or an answer leads to.
ghost use Rattle.std.specs.Prelude.{◌≡◌, IfOk};
ghost use Rattle.jb_news_talk.specs.Turns.{answers, asks, asks_clock, listing, responds, tells_and_asks};

use crate::place::{Chosen, NewsPlace, NewsStage};
use jb_base::{Bytes, OutOfMemory};
use jb_news::{FixedResponse, response};
use jb_speech::{Act, AreaRequest, Request};
use jb_state::Question;
use std::alloc::Global;
use std::marker::Model;

/// Where the reader is then, what is sent, and what is asked.
#[derive(Drop)]
pub(crate) struct NewsTurn {
    pub place: NewsPlace,
    pub text: Bytes,
    pub request: Option<Request>,
}

impl Model for NewsTurn {
    ghost use Rattle.jb_speech.specs.Conversations.{Turn};
    ghost use Rattle.jb_news_talk.specs.declared.place.NewsPlace.{NewsPlace};

    ghost Value = { Turn NewsPlace };

    ghost view = { λ t. record { place = t.place; text = t.text; request = t.request } };
}

/// Sends these bytes, and awaits the next line.
pub(crate) fn answer(chosen: Chosen, text: Bytes) -> NewsTurn
    ensures { result ≡ answers chosen text }
{
    NewsTurn {
        place: NewsPlace {
            chosen,
            stage: NewsStage::Idle,
        },
        text,
        request: None,
    }
}

/// Sends an answer that is always the same.
pub(crate) fn respond(
    alloc: Global,
    chosen: Chosen,
    fixed: FixedResponse,
) -> Result<NewsTurn, OutOfMemory>
    ensures { IfOk result (λ turn. turn ≡ responds chosen fixed) }
{
    Ok(answer(chosen, response(alloc, fixed)?))
}

/// Sends these bytes, asks an area, and awaits its answer at a stage.
pub(crate) fn tell_and_ask(
    chosen: Chosen,
    text: Bytes,
    stage: NewsStage,
    area: u32,
    act: Act,
) -> NewsTurn
    ensures { result ≡ tells_and_asks chosen text stage area act }
{
    NewsTurn {
        place: NewsPlace { chosen, stage },
        text,
        request: Some(Request::Area(AreaRequest { user: 0, area, act })),
    }
}

/// Asks an area, and awaits its answer at a stage.
pub(crate) fn ask(alloc: Global, chosen: Chosen, stage: NewsStage, area: u32, act: Act) -> NewsTurn
    ensures { result ≡ asks chosen stage area act }
{
    tell_and_ask(chosen, Bytes::new(alloc), stage, area, act)
}

/// Asks the clock.
pub(crate) fn ask_clock(alloc: Global, chosen: Chosen) -> NewsTurn
    ensures { result ≡ asks_clock chosen }
{
    NewsTurn {
        place: NewsPlace {
            chosen,
            stage: NewsStage::Dating,
        },
        text: Bytes::new(alloc),
        request: Some(Request::Clock),
    }
}

/// The messages from a number on, at most so many.
pub(crate) fn listing(from: u32, most: u32) -> Act
    ensures { result ≡ listing from most }
{
    Act::Look(Question::List { from, most })
}
