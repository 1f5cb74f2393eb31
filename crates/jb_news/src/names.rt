//! The names of groups and of articles.
ghost use Rattle.std.specs.Prelude.{◌≡◌};
ghost use Rattle.jb_news.specs.Names.{group_name, id_from, number_from};

use crate::numbers::plain_number;
use crate::words::{around, place_of};

/// The group that a word names.
#[derive(Clone, Copy)]
pub enum GroupName {
    /// `jam.K`, by its number K.
    Number(u32),
    /// Any other word, which names no group.
    Other,
}

/// The article that a message id names: `<K.N@jam.invalid>`.
#[derive(Clone, Copy)]
pub struct ArticleId {
    /// The number K of its group.
    pub area: u32,
    /// Its number N there.
    pub number: u32,
}

/// The group that a word names.
pub(crate) fn group_name(word: &[u8]) -> GroupName
    ensures { result ≡ group_name word.now }
{
    if !word.starts_with(b"jam.") {
        return GroupName::Other;
    }
    match plain_number(&word[4..]) {
        Some(number) => GroupName::Number(number),
        None => GroupName::Other,
    }
}

/// The number of an article in what stands behind the first stop of its id.
fn number_from(text: &[u8]) -> Option<u32>
    ensures { result ≡ number_from text.now }
{
    let (front, end) = text.split_at(place_of(b'@', text));
    if end == b"@jam.invalid>".as_slice() {
        plain_number(front)
    } else {
        None
    }
}

/// The article that an id names, of which this stands behind `<`.
pub(crate) fn id_from(text: &[u8]) -> Option<ArticleId>
    ensures { result ≡ id_from text.now }
{
    let parts = around(b'.', text);
    match (plain_number(parts.front), number_from(parts.behind)) {
        (Some(area), Some(number)) => Some(ArticleId { area, number }),
        _ => None,
    }
}
