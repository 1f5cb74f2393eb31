//! The pure bottom of a news server: the lines of a connection, and what a line says (RFC 3977).
//!
//! The layer above may rely on the definitions in `specs/`: each call gives exactly what they say, in bounded memory.
#![tactic(auto)]

mod body;
mod charset;
mod command;
mod cutter;
mod dates;
mod groups;
mod headers;
mod laws;
mod line;
mod names;
mod numbers;
mod overview;
mod parsing;
mod responses;
mod verb;
mod words;
mod writing;

pub use body::append_body;
pub use command::{NewsCommand, OverTarget, Part, Target};
pub use cutter::LineCutter;
pub use dates::clock;
pub use groups::{append_active, append_listed, append_name, article, chosen};
pub use headers::append_headers;
pub use laws::{lines_are_cut_one_way, names_are_read_back};
pub use line::{LineText, NewsLine};
pub use names::{ArticleId, GroupName};
pub use numbers::{MOST_ARTICLE, NumberRange};
pub use overview::append_overview;
pub use parsing::command_of;
pub use responses::{FixedResponse, append_end, greeting, response};
pub use writing::append_group;
