//! `ARTICLE`, `HEAD`, `BODY` and `STAT`: an article is shown.
ghost use Rattle.std.specs.Prelude.{◌≡◌, ◌<◌, ◌++◌, IfOk, OnOk, length};
ghost use Rattle.jb_news.specs.declared.names.GroupName.TheVariants.{Number};
ghost use Rattle.jb_news_talk.specs.Newsgroups.{group_of};
ghost use Rattle.jb_news_talk.specs.Articles.{asked_number, chosen_then, missing_by, part_text, show_row, showing_row, shows, shows_in, shows_named, shows_numbered};

use crate::newsgroups::{group_of, number_of};
use crate::place::{Chosen, NewsStage, ShownBy};
use crate::turn::{NewsTurn, answer, ask, respond};
use jb_base::{Bytes, OutOfMemory};
use jb_conf::Board;
use jb_menu::Given;
use jb_model::{Command, Letter, Reply};
use jb_news::{
    ArticleId, FixedResponse, GroupName, MOST_ARTICLE, Part, Target, append_body, append_end,
    append_headers, article,
};
use jb_speech::Act;
use jb_text::append_line_end;
use std::alloc::Global;

/// Looks at a message.
fn show_message(
    alloc: Global,
    chosen: Chosen,
    part: Part,
    area: u32,
    number: u32,
    how: ShownBy,
) -> NewsTurn
    ensures { result ≡ shows chosen part area number how }
{
    let stage = NewsStage::Showing {
        part,
        area,
        number,
        how,
    };
    ask(
        alloc,
        chosen,
        stage,
        area,
        Act::Ask(Command::Peek { number }),
    )
}

/// Shows the current article.
fn show_current(alloc: Global, chosen: Chosen, part: Part) -> Result<NewsTurn, OutOfMemory>
    ensures { IfOk result (λ turn. turn ≡ shows_in chosen part chosen.group) }
{
    match (chosen.group, chosen.current) {
        (None, _) => respond(alloc, chosen, FixedResponse::NoGroup),
        (_, None) => respond(alloc, chosen, FixedResponse::NoCurrent),
        (Some(area), Some(number)) => {
            Ok(show_message(alloc, chosen, part, area, number, ShownBy::Current))
        }
    }
}

/// Shows the article with this number.
fn show_numbered(
    alloc: Global,
    chosen: Chosen,
    part: Part,
    number: u32,
) -> Result<NewsTurn, OutOfMemory>
    ensures { IfOk result (λ turn. turn ≡ shows_numbered chosen part number chosen.group) }
{
    match chosen.group {
        None => respond(alloc, chosen, FixedResponse::NoGroup),
        Some(area) if number <= MOST_ARTICLE => {
            Ok(show_message(alloc, chosen, part, area, number, ShownBy::Number))
        }
        Some(_) => respond(alloc, chosen, FixedResponse::NoSuchNumber),
    }
}

/// Shows the article with this id.
fn show_named(
    alloc: Global,
    board: &Board,
    chosen: Chosen,
    part: Part,
    id: ArticleId,
) -> Result<NewsTurn, OutOfMemory>
    ensures { IfOk result (λ turn. turn ≡ shows_named chosen part id.number (group_of board.now (Number id.area))) }
{
    match group_of(board, GroupName::Number(id.area)) {
        None => respond(alloc, chosen, FixedResponse::NoSuchArticle),
        Some(area) => Ok(show_message(alloc, chosen, part, area, id.number, ShownBy::Id)),
    }
}

/// Shows a part of an article.
pub(crate) fn show(
    alloc: Global,
    board: &Board,
    chosen: Chosen,
    part: Part,
    target: Target,
) -> Result<NewsTurn, OutOfMemory>
    ensures { IfOk result (λ turn. turn ≡ show_row board.now chosen part target) }
{
    match target {
        Target::Current => show_current(alloc, chosen, part),
        Target::Number(number) => show_numbered(alloc, chosen, part, number),
        Target::Id(id) => show_named(alloc, board, chosen, part, id),
        Target::OtherId => respond(alloc, chosen, FixedResponse::NoSuchArticle),
    }
}

/// The number that is answered: 0 where the article was asked for by its id.
fn asked_number(how: ShownBy, number: u32) -> u32
    ensures { result ≡ asked_number how number }
{
    match how {
        ShownBy::Current | ShownBy::Number => number,
        ShownBy::Id => 0,
    }
}

/// The answer where the article is not there.
fn missing_by(how: ShownBy) -> FixedResponse
    ensures { result ≡ missing_by how }
{
    match how {
        ShownBy::Current => FixedResponse::NoCurrent,
        ShownBy::Number => FixedResponse::NoSuchNumber,
        ShownBy::Id => FixedResponse::NoSuchArticle,
    }
}

/// What is chosen behind the article: one that was asked for by its number is the current one.
fn chosen_then(how: ShownBy, chosen: Chosen, number: u32) -> Chosen
    ensures { result ≡ chosen_then how chosen number }
{
    match how {
        ShownBy::Current | ShownBy::Id => chosen,
        ShownBy::Number => Chosen {
            group: chosen.group,
            current: Some(number),
        },
    }
}

/// Puts a part of an article behind a text, with the end of its block.
fn append_part(
    alloc: Global,
    text: &mut Bytes,
    part: Part,
    area: u32,
    letter: &Letter,
) -> Result<(), OutOfMemory>
    ensures { OnOk result (text.new ≡ text.old ++ part_text part area letter.now) }
{
    match part {
        Part::Article => {
            append_headers(alloc, text, area, letter)?;
            append_line_end(text)?;
            append_body(alloc, text, letter.text.as_slice())?;
            append_end(text)
        }
        Part::Head => {
            append_headers(alloc, text, area, letter)?;
            append_end(text)
        }
        Part::Body => {
            append_body(alloc, text, letter.text.as_slice())?;
            append_end(text)
        }
        Part::Stat => Ok(()),
    }
}

/// Takes a message that is shown.
pub(crate) fn showing(
    alloc: Global,
    board: &Board,
    chosen: Chosen,
    part: Part,
    area: u32,
    number: u32,
    how: ShownBy,
    given: &Given,
) -> Result<NewsTurn, OutOfMemory>
    requires { area < length board.now.areas }
    ensures { IfOk result (λ turn. turn ≡ showing_row board.now chosen part area number how given.now) }
{
    match given {
        Given::Reply(Reply::Text { letter }) => {
            let area = number_of(board, area);
            let mut text = article(alloc, part, asked_number(how, number), area, number)?;
            append_part(alloc, &mut text, part, area, letter)?;
            Ok(answer(chosen_then(how, chosen, number), text))
        }
        Given::Reply(_) => respond(alloc, chosen, missing_by(how)),
        _ => respond(alloc, chosen, FixedResponse::Fault),
    }
}
