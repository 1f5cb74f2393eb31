//! What a line asks for.

use crate::line::LineText;
use crate::names::{ArticleId, GroupName};
use crate::numbers::NumberRange;

/// Which part of an article is shown.
#[derive(Clone, Copy, PartialEq, Eq)]
pub enum Part {
    /// Headers and body.
    Article,
    /// The headers.
    Head,
    /// The body.
    Body,
    /// Neither: whether it is there.
    Stat,
}

/// Which article is meant.
#[derive(Clone, Copy)]
pub enum Target {
    /// The current one.
    Current,
    /// The one with this number in the chosen group; 2,147,483,648 stands for each number that is too large.
    Number(u32),
    /// The one with this id.
    Id(ArticleId),
    /// The one with an id that none has.
    OtherId,
}

/// Which articles an overview is of.
#[derive(Clone, Copy)]
pub enum OverTarget {
    /// The current one.
    Current,
    /// Those with these numbers.
    Range(NumberRange),
    /// One with an id.
    Id,
}

/// What a line asks for.
#[derive(Drop)]
pub enum NewsCommand {
    Capabilities,
    ModeReader,
    Help,
    Quit,
    /// The groups that a wildmat takes, or all.
    ListActive(Option<LineText>),
    /// The names of the groups that a wildmat takes, or of all.
    ListNewsgroups(Option<LineText>),
    ListOverviewFormat,
    /// A list that is not kept here.
    ListNotKept,
    Group(GroupName),
    /// The numbers in a range, of this group or else of the chosen one.
    Listgroup(Option<GroupName>, NumberRange),
    Next,
    Last,
    Over(OverTarget),
    Date,
    Newgroups,
    Post,
    Show(Part, Target),
    /// A command with other words than it takes, or a line that is too long.
    Syntax,
    /// No command.
    Unknown,
}
