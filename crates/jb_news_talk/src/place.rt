//! Where a news reader is.
ghost use Rattle.std.specs.Prelude.{◌≡◌};
ghost use Rattle.jb_news_talk.specs.Conversations.{is_going};

use jb_base::Bytes;
use jb_news::{FixedResponse, LineText, NumberRange, Part};
use jb_state::Figures;

/// The group that is chosen, by the place of its area on the board, counted from 0, and the number of the current article there.
#[derive(Clone, Copy)]
pub struct Chosen {
    pub group: Option<u32>,
    pub current: Option<u32>,
}

/// What is told of each message of a range.
#[derive(Clone, Copy)]
pub enum Told {
    /// Its number; the group is chosen then, with this as its first article.
    Numbers(Option<u32>),
    /// Its overview, or where there is none this.
    Overviews(FixedResponse),
}

/// How an article was asked for.
#[derive(Clone, Copy, PartialEq, Eq)]
pub enum ShownBy {
    /// As the current one.
    Current,
    /// By its number.
    Number,
    /// By its id.
    Id,
}

/// What is awaited. An area is named by its place on the board, counted from 0.
#[derive(Drop)]
pub enum NewsStage {
    /// The next line.
    Idle,
    /// The figures of a group of a list, behind the lines of those before it.
    Listing {
        wildmat: Option<LineText>,
        area: u32,
        text: Bytes,
    },
    /// The figures of a group that is to be chosen; with a range, its numbers are told then.
    Choosing {
        area: u32,
        range: Option<NumberRange>,
    },
    /// Its first message.
    Entering {
        area: u32,
        range: Option<NumberRange>,
        figures: Figures,
    },
    /// The messages from a number to another; the answer begins with these bytes, if it has not begun.
    Telling {
        told: Told,
        area: u32,
        next: u32,
        last: u32,
        head: Bytes,
    },
    /// The first message behind the current one.
    Following {
        area: u32,
    },
    /// The last message before this number: one that was found, and whether there is another above it.
    Seeking {
        area: u32,
        found: Option<u32>,
        top: u32,
    },
    /// A message.
    Showing {
        part: Part,
        area: u32,
        number: u32,
        how: ShownBy,
    },
    /// What the clock shows.
    Dating,
    /// Nothing more: the reader has quit.
    Over,
    /// Nothing more: memory was wanting, or an answer in the middle of a list.
    Broken,
}

impl NewsStage {
    /// Whether the next line is awaited.
    pub(crate) fn is_on(&self) -> bool
        ensures { result ≡ is_going self.now }
    {
        matches!(self, NewsStage::Idle)
    }
}

/// Where a reader is: what is chosen, and what is awaited.
#[derive(Drop)]
pub struct NewsPlace {
    pub chosen: Chosen,
    pub stage: NewsStage,
}
