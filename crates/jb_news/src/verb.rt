//! The first word of a command.
ghost use Rattle.std.specs.Prelude.{◌≡◌};
ghost use Rattle.jb_news.specs.Verbs.{is_not_kept, list_kind, verb_of};

use crate::words::says;

/// What the first word of a line says.
#[derive(Clone, Copy)]
pub(crate) enum Verb {
    Capabilities,
    Mode,
    Help,
    Quit,
    List,
    Group,
    Listgroup,
    Article,
    Head,
    Body,
    Stat,
    Next,
    Last,
    Over,
    Date,
    Newgroups,
    Post,
    Other,
}

/// What the word behind `LIST` says.
#[derive(Clone, Copy)]
pub(crate) enum ListKind {
    Active,
    Newsgroups,
    OverviewFormat,
    NotKept,
    Other,
}

/// What the first word of a line says.
pub(crate) fn verb_of(word: &[u8]) -> Verb
    ensures { result ≡ verb_of word.now }
{
    if says(b"CAPABILITIES", word) {
        Verb::Capabilities
    } else if says(b"MODE", word) {
        Verb::Mode
    } else if says(b"HELP", word) {
        Verb::Help
    } else if says(b"QUIT", word) {
        Verb::Quit
    } else if says(b"LIST", word) {
        Verb::List
    } else if says(b"GROUP", word) {
        Verb::Group
    } else if says(b"LISTGROUP", word) {
        Verb::Listgroup
    } else if says(b"ARTICLE", word) {
        Verb::Article
    } else if says(b"HEAD", word) {
        Verb::Head
    } else if says(b"BODY", word) {
        Verb::Body
    } else if says(b"STAT", word) {
        Verb::Stat
    } else if says(b"NEXT", word) {
        Verb::Next
    } else if says(b"LAST", word) {
        Verb::Last
    } else if says(b"OVER", word) || says(b"XOVER", word) {
        Verb::Over
    } else if says(b"DATE", word) {
        Verb::Date
    } else if says(b"NEWGROUPS", word) {
        Verb::Newgroups
    } else if says(b"POST", word) {
        Verb::Post
    } else {
        Verb::Other
    }
}

/// Whether a list of this name is known and not kept here.
fn is_not_kept(word: &[u8]) -> bool
    ensures { result ≡ is_not_kept word.now }
{
    says(b"HEADERS", word)
        || says(b"ACTIVE.TIMES", word)
        || says(b"DISTRIB.PATS", word)
        || says(b"SUBSCRIPTIONS", word)
}

/// What the word behind `LIST` says.
pub(crate) fn list_kind(word: &[u8]) -> ListKind
    ensures { result ≡ list_kind word.now }
{
    if says(b"ACTIVE", word) {
        ListKind::Active
    } else if says(b"NEWSGROUPS", word) {
        ListKind::Newsgroups
    } else if says(b"OVERVIEW.FMT", word) {
        ListKind::OverviewFormat
    } else if is_not_kept(word) {
        ListKind::NotKept
    } else {
        ListKind::Other
    }
}
