//! From a line to what it asks for.
ghost use Rattle.std.specs.Prelude.{◌≡◌, ◌≤◌, length};
ghost use Rattle.jb_news.specs.Commands.{all_numbers, alone, by_verb, by_words, command_of, group_command, in_range, is_date, is_time, list_by, list_of, listgroup_in, listgroup_of, mode_of, named_target, newgroups_of, newgroups_since, one_wildmat, over_of, over_target, show_of, shown_part, target_of, with_one, with_wildmat, zone_of};
ghost use Rattle.jb_news.specs.Words.{words_of};

use crate::command::{NewsCommand, OverTarget, Part, Target};
use crate::line::{LineText, NewsLine};
use crate::names::{GroupName, group_name, id_from};
use crate::numbers::{MOST_ARTICLE, NumberRange, all_digits, article_number, range_of};
use crate::verb::{ListKind, Verb, list_kind, verb_of};
use crate::words::{ends_with, first_word, says};

/// A command that no other word follows.
fn alone(command: NewsCommand, rest: &[u8]) -> NewsCommand
    ensures { result ≡ alone command (words_of rest.now) }
{
    match first_word(rest) {
        None => command,
        Some(_) => NewsCommand::Syntax,
    }
}

/// A command that one other word may follow.
fn with_one(command: NewsCommand, rest: &[u8]) -> NewsCommand
    ensures { result ≡ with_one command (words_of rest.now) }
{
    match first_word(rest) {
        None => command,
        Some(other) => alone(command, other.behind),
    }
}

/// What `MODE` asks for.
fn mode_of(rest: &[u8]) -> NewsCommand
    ensures { result ≡ mode_of (words_of rest.now) }
{
    match first_word(rest) {
        None => NewsCommand::Syntax,
        Some(mode) => {
            if says(b"READER", mode.word) {
                alone(NewsCommand::ModeReader, mode.behind)
            } else {
                NewsCommand::Syntax
            }
        }
    }
}

/// What a list asks for that a wildmat may follow.
fn one_wildmat(kind: ListKind, rest: &[u8]) -> NewsCommand
    requires { length rest.now ≤ 510 }
    ensures { result ≡ one_wildmat kind (words_of rest.now) }
{
    match first_word(rest) {
        None => with_wildmat(kind, None),
        Some(first) => alone(
            with_wildmat(kind, Some(LineText::copy(first.word))),
            first.behind,
        ),
    }
}

/// A list with a wildmat or without one.
fn with_wildmat(kind: ListKind, wildmat: Option<LineText>) -> NewsCommand
    ensures { result ≡ with_wildmat kind wildmat }
{
    match kind {
        ListKind::Active => NewsCommand::ListActive(wildmat),
        ListKind::Newsgroups => NewsCommand::ListNewsgroups(wildmat),
        _ => NewsCommand::Syntax,
    }
}

/// What a list of this kind asks for.
fn list_by(kind: ListKind, rest: &[u8]) -> NewsCommand
    requires { length rest.now ≤ 510 }
    ensures { result ≡ list_by kind (words_of rest.now) }
{
    match kind {
        ListKind::OverviewFormat => alone(NewsCommand::ListOverviewFormat, rest),
        ListKind::NotKept => with_one(NewsCommand::ListNotKept, rest),
        _ => one_wildmat(kind, rest),
    }
}

/// What `LIST` asks for.
fn list_of(rest: &[u8]) -> NewsCommand
    requires { length rest.now ≤ 510 }
    ensures { result ≡ list_of (words_of rest.now) }
{
    match first_word(rest) {
        None => NewsCommand::ListActive(None),
        Some(first) => list_by(list_kind(first.word), first.behind),
    }
}

/// What `GROUP` asks for.
fn group_command(rest: &[u8]) -> NewsCommand
    ensures { result ≡ group_command (words_of rest.now) }
{
    match first_word(rest) {
        None => NewsCommand::Syntax,
        Some(first) => alone(NewsCommand::Group(group_name(first.word)), first.behind),
    }
}

/// The numbers of a group in a range, where there is one.
fn in_range(group: GroupName, range: Option<NumberRange>) -> NewsCommand
    ensures { result ≡ in_range group range }
{
    match range {
        None => NewsCommand::Syntax,
        Some(range) => NewsCommand::Listgroup(Some(group), range),
    }
}

/// Each number of an article.
fn all_numbers() -> NumberRange
    ensures { result ≡ all_numbers }
{
    NumberRange {
        first: 1,
        last: MOST_ARTICLE,
    }
}

/// What `LISTGROUP` and a group ask for.
fn listgroup_in(group: GroupName, rest: &[u8]) -> NewsCommand
    ensures { result ≡ listgroup_in group (words_of rest.now) }
{
    match first_word(rest) {
        None => NewsCommand::Listgroup(Some(group), all_numbers()),
        Some(first) => alone(in_range(group, range_of(first.word)), first.behind),
    }
}

/// What `LISTGROUP` asks for.
fn listgroup_of(rest: &[u8]) -> NewsCommand
    ensures { result ≡ listgroup_of (words_of rest.now) }
{
    match first_word(rest) {
        None => NewsCommand::Listgroup(None, all_numbers()),
        Some(first) => listgroup_in(group_name(first.word), first.behind),
    }
}

/// The article that a word names by an id, of which this stands behind `<`.
fn named_target(text: &[u8]) -> Option<Target>
    ensures { result ≡ named_target text.now }
{
    if !ends_with(b'>', text) {
        return None;
    }
    match id_from(text) {
        Some(id) => Some(Target::Id(id)),
        None => Some(Target::OtherId),
    }
}

/// The article that a word names.
fn target_of(word: &[u8]) -> Option<Target>
    ensures { result ≡ target_of word.now }
{
    let Some((first, rest)) = word.split_first() else {
        return None;
    };
    if *first == b'<' {
        return named_target(rest);
    }
    match article_number(word) {
        Some(number) => Some(Target::Number(number)),
        None => None,
    }
}

/// A part of an article, where a word names one.
fn shown_part(part: Part, target: Option<Target>) -> NewsCommand
    ensures { result ≡ shown_part part target }
{
    match target {
        None => NewsCommand::Syntax,
        Some(target) => NewsCommand::Show(part, target),
    }
}

/// What a command asks for that shows a part of an article.
fn show_of(part: Part, rest: &[u8]) -> NewsCommand
    ensures { result ≡ show_of part (words_of rest.now) }
{
    match first_word(rest) {
        None => NewsCommand::Show(part, Target::Current),
        Some(first) => alone(shown_part(part, target_of(first.word)), first.behind),
    }
}

/// What an overview with a word is of.
fn over_target(word: &[u8]) -> NewsCommand
    ensures { result ≡ over_target word.now }
{
    let Some((first, rest)) = word.split_first() else {
        return NewsCommand::Syntax;
    };
    if *first == b'<' && ends_with(b'>', rest) {
        return NewsCommand::Over(OverTarget::Id);
    }
    match range_of(word) {
        Some(range) => NewsCommand::Over(OverTarget::Range(range)),
        None => NewsCommand::Syntax,
    }
}

/// What `OVER` asks for.
fn over_of(rest: &[u8]) -> NewsCommand
    ensures { result ≡ over_of (words_of rest.now) }
{
    match first_word(rest) {
        None => NewsCommand::Over(OverTarget::Current),
        Some(first) => alone(over_target(first.word), first.behind),
    }
}

/// Whether a word is a date: six digits or eight.
fn is_date(word: &[u8]) -> bool
    ensures { result ≡ is_date word.now }
{
    (word.len() == 6 || word.len() == 8) && all_digits(word)
}

/// Whether a word is a time: six digits.
fn is_time(word: &[u8]) -> bool
    ensures { result ≡ is_time word.now }
{
    word.len() == 6 && all_digits(word)
}

/// What `NEWGROUPS` asks for behind date and time.
fn zone_of(rest: &[u8]) -> NewsCommand
    ensures { result ≡ zone_of (words_of rest.now) }
{
    match first_word(rest) {
        None => NewsCommand::Newgroups,
        Some(zone) => {
            if says(b"GMT", zone.word) {
                alone(NewsCommand::Newgroups, zone.behind)
            } else {
                NewsCommand::Syntax
            }
        }
    }
}

/// What `NEWGROUPS` asks for behind a date.
fn newgroups_since(rest: &[u8]) -> NewsCommand
    ensures { result ≡ newgroups_since (words_of rest.now) }
{
    match first_word(rest) {
        None => NewsCommand::Syntax,
        Some(time) => {
            if is_time(time.word) {
                zone_of(time.behind)
            } else {
                NewsCommand::Syntax
            }
        }
    }
}

/// What `NEWGROUPS` asks for.
fn newgroups_of(rest: &[u8]) -> NewsCommand
    ensures { result ≡ newgroups_of (words_of rest.now) }
{
    match first_word(rest) {
        None => NewsCommand::Syntax,
        Some(date) => {
            if is_date(date.word) {
                newgroups_since(date.behind)
            } else {
                NewsCommand::Syntax
            }
        }
    }
}

/// What a line asks for that begins with this word.
fn by_verb(verb: Verb, rest: &[u8]) -> NewsCommand
    requires { length rest.now ≤ 510 }
    ensures { result ≡ by_verb verb (words_of rest.now) }
{
    match verb {
        Verb::Capabilities => with_one(NewsCommand::Capabilities, rest),
        Verb::Mode => mode_of(rest),
        Verb::Help => alone(NewsCommand::Help, rest),
        Verb::Quit => alone(NewsCommand::Quit, rest),
        Verb::List => list_of(rest),
        Verb::Group => group_command(rest),
        Verb::Listgroup => listgroup_of(rest),
        Verb::Article => show_of(Part::Article, rest),
        Verb::Head => show_of(Part::Head, rest),
        Verb::Body => show_of(Part::Body, rest),
        Verb::Stat => show_of(Part::Stat, rest),
        Verb::Next => alone(NewsCommand::Next, rest),
        Verb::Last => alone(NewsCommand::Last, rest),
        Verb::Over => over_of(rest),
        Verb::Date => alone(NewsCommand::Date, rest),
        Verb::Newgroups => newgroups_of(rest),
        Verb::Post => alone(NewsCommand::Post, rest),
        Verb::Other => NewsCommand::Unknown,
    }
}

/// What a text of few bytes asks for.
fn by_words(text: &[u8]) -> NewsCommand
    requires { length text.now ≤ 510 }
    ensures { result ≡ by_words (words_of text.now) }
{
    match first_word(text) {
        None => NewsCommand::Unknown,
        Some(first) => by_verb(verb_of(first.word), first.behind),
    }
}

/// What a line asks for. It takes a time that grows as the line, and no memory.
pub fn command_of(line: &NewsLine) -> NewsCommand
    ensures { result ≡ command_of line.now }
{
    match line {
        NewsLine::Line(text) => by_words(text.as_slice()),
        NewsLine::TooLong => NewsCommand::Syntax,
    }
}
