//! `LISTGROUP` and `OVER`: what a list of messages tells, in pieces.
ghost use Rattle.std.specs.Prelude.{◌≡◌, ◌<◌, ◌++◌, IfOk, OnOk, length};
ghost use Rattle.std.specs.List.{flat_map};
ghost use Rattle.jb_news_talk.specs.Telling.{begins, behind_last, breaks, chosen_by, goes_on_from, has_none, has_numbers, last_number, missing_of, over_in, overview_of, overviews, telling_row, tells, tells_on, told_line, up_to};
ghost use Rattle.jb_news_talk.specs.declared.place.Told.{Told};

use crate::newsgroups::number_of;
use crate::place::{Chosen, NewsPlace, NewsStage, Told};
use crate::turn::{NewsTurn, answer, ask, listing, respond, tell_and_ask};
use jb_base::{Bytes, OutOfMemory};
use jb_conf::Board;
use jb_menu::Given;
use jb_news::{
    FixedResponse, NumberRange, OverTarget, append_end, append_listed, append_overview, response,
};
use jb_state::{Answer, Summary};
use std::alloc::Global;

/// So many messages are looked at together.
const PIECE: u32 = 100;

/// Whether a range has a number.
pub(crate) fn has_numbers(range: NumberRange) -> bool
    ensures { result ≡ has_numbers range }
{
    range.first <= range.last
}

/// Asks for the first piece of a range, of which the answer begins with these bytes.
pub(crate) fn begin(
    alloc: Global,
    chosen: Chosen,
    told: Told,
    area: u32,
    range: NumberRange,
    head: Bytes,
) -> NewsTurn
    ensures { result ≡ begins chosen told area range head }
{
    let stage = NewsStage::Telling {
        told,
        area,
        next: range.first,
        last: range.last,
        head,
    };
    ask(alloc, chosen, stage, area, listing(range.first, PIECE))
}

/// Puts what is told of a message behind a text.
fn append_told(
    alloc: Global,
    text: &mut Bytes,
    board: &Board,
    told: Told,
    area: u32,
    one: &Summary,
) -> Result<(), OutOfMemory>
    requires { area < length board.now.areas }
    ensures { OnOk result (text.new ≡ text.old ++ told_line board.now told area one.now) }
{
    match told {
        Told::Numbers(_) => append_listed(text, one.number),
        Told::Overviews(_) => append_overview(alloc, text, number_of(board, area), one),
    }
}

/// Puts what is told of each of these messages up to a number behind a text.
fn append_all(
    alloc: Global,
    text: &mut Bytes,
    board: &Board,
    told: Told,
    area: u32,
    last: u32,
    messages: &[Summary],
) -> Result<(), OutOfMemory>
    requires { area < length board.now.areas }
    ensures { OnOk result (text.new ≡ text.old
        ++ flat_map (told_line board.now told area) (up_to last messages.now)) }
{
    for one in messages {
        if one.number <= last {
            append_told(alloc, text, board, told, area, one)?;
        }
    }
    Ok(())
}

/// The number of the last of these messages.
fn last_number(messages: &[Summary]) -> Option<u32>
    ensures { result ≡ last_number messages.now }
{
    match messages.last() {
        Some(one) => Some(one.number),
        None => None,
    }
}

/// From which number a list goes on behind these messages.
fn goes_on_from(next: u32, last: u32, messages: &[Summary]) -> Option<u32>
    ensures { result ≡ goes_on_from next last messages.now }
{
    if messages.len() < PIECE as usize {
        return None;
    }
    let number = last_number(messages)?;
    if next <= number && number < last {
        Some(number + 1)
    } else {
        None
    }
}

/// What is chosen once the answer has begun.
fn chosen_by(told: Told, chosen: Chosen, area: u32) -> Chosen
    ensures { result ≡ chosen_by told chosen area }
{
    match told {
        Told::Numbers(current) => Chosen {
            group: Some(area),
            current,
        },
        Told::Overviews(_) => chosen,
    }
}

/// Whether none of these messages is up to a number.
fn has_none(last: u32, messages: &[Summary]) -> bool
    ensures { result ≡ has_none last messages.now }
{
    !messages.iter().any(|one| one.number <= last)
}

/// The answer in place of overviews of which there are none.
fn missing_of(told: Told, head: &Bytes, last: u32, messages: &[Summary]) -> Option<FixedResponse>
    ensures { result ≡ missing_of told head.now (has_none last messages.now) }
{
    match told {
        Told::Overviews(missing) if !head.is_empty() && has_none(last, messages) => Some(missing),
        _ => None,
    }
}

/// Sends what is told so far, and asks for the next piece, or ends the answer.
fn tell_on(
    alloc: Global,
    chosen: Chosen,
    told: Told,
    area: u32,
    last: u32,
    text: Bytes,
    next: Option<u32>,
) -> Result<NewsTurn, OutOfMemory>
    ensures { IfOk result (λ turn. turn ≡ tells_on chosen told area last text next) }
{
    let mut text = text;
    match next {
        None => {
            append_end(&mut text)?;
            Ok(answer(chosen, text))
        }
        Some(next) => {
            let stage = NewsStage::Telling {
                told,
                area,
                next,
                last,
                head: Bytes::new(alloc),
            };
            Ok(tell_and_ask(chosen, text, stage, area, listing(next, PIECE)))
        }
    }
}

/// Takes a piece of the answer: what is told of its messages, or the answer in place of all.
fn tell(
    alloc: Global,
    board: &Board,
    chosen: Chosen,
    told: Told,
    area: u32,
    next: u32,
    last: u32,
    head: Bytes,
    messages: &[Summary],
) -> Result<NewsTurn, OutOfMemory>
    requires { area < length board.now.areas }
    ensures { IfOk result (λ turn. turn ≡ tells board.now chosen told area next last head messages.now
        (missing_of told head (has_none last messages.now))) }
{
    if let Some(missing) = missing_of(told, &head, last, messages) {
        return respond(alloc, chosen, missing);
    }
    let mut text = head;
    append_all(alloc, &mut text, board, told, area, last, messages)?;
    let then = chosen_by(told, chosen, area);
    tell_on(
        alloc,
        then,
        told,
        area,
        last,
        text,
        goes_on_from(next, last, messages),
    )
}

/// Where a list has begun, there is no other answer in its place: the connection ends.
fn break_off(alloc: Global, chosen: Chosen, head: &Bytes) -> Result<NewsTurn, OutOfMemory>
    ensures { IfOk result (λ turn. turn ≡ breaks chosen head.now) }
{
    if !head.is_empty() {
        return respond(alloc, chosen, FixedResponse::Fault);
    }
    Ok(NewsTurn {
        place: NewsPlace {
            chosen,
            stage: NewsStage::Broken,
        },
        text: Bytes::new(alloc),
        request: None,
    })
}

/// Takes the messages of a piece.
pub(crate) fn telling(
    alloc: Global,
    board: &Board,
    chosen: Chosen,
    told: Told,
    area: u32,
    next: u32,
    last: u32,
    head: Bytes,
    given: &Given,
) -> Result<NewsTurn, OutOfMemory>
    requires { area < length board.now.areas }
    ensures { IfOk result (λ turn. turn ≡ telling_row board.now chosen told area next last head given.now) }
{
    match given {
        Given::Answer(Answer::Summaries(messages)) => {
            let messages = messages.as_slice();
            tell(alloc, board, chosen, told, area, next, last, head, messages)
        }
        _ => break_off(alloc, chosen, &head),
    }
}

/// The overviews of a range, or what is answered in their place.
fn overviews(
    alloc: Global,
    chosen: Chosen,
    area: u32,
    missing: FixedResponse,
    range: NumberRange,
) -> Result<NewsTurn, OutOfMemory>
    ensures { IfOk result (λ turn. turn ≡ overviews chosen area missing range) }
{
    if !has_numbers(range) {
        return respond(alloc, chosen, missing);
    }
    let head = response(alloc, FixedResponse::Overview)?;
    Ok(begin(alloc, chosen, Told::Overviews(missing), area, range, head))
}

/// The overview of the current article.
fn overview(alloc: Global, chosen: Chosen, area: u32) -> Result<NewsTurn, OutOfMemory>
    ensures { IfOk result (λ turn. turn ≡ overview_of chosen area chosen.current) }
{
    match chosen.current {
        None => respond(alloc, chosen, FixedResponse::NoCurrent),
        Some(number) => {
            let range = NumberRange {
                first: number,
                last: number,
            };
            overviews(alloc, chosen, area, FixedResponse::NoCurrent, range)
        }
    }
}

/// `OVER` and what follows it.
pub(crate) fn over(
    alloc: Global,
    chosen: Chosen,
    target: OverTarget,
) -> Result<NewsTurn, OutOfMemory>
    ensures { IfOk result (λ turn. turn ≡ over_in chosen target chosen.group) }
{
    match (target, chosen.group) {
        (OverTarget::Id, _) => respond(alloc, chosen, FixedResponse::NotKept),
        (_, None) => respond(alloc, chosen, FixedResponse::NoGroup),
        (OverTarget::Current, Some(area)) => overview(alloc, chosen, area),
        (OverTarget::Range(range), Some(area)) => {
            overviews(alloc, chosen, area, FixedResponse::NoSuchNumber, range)
        }
    }
}
