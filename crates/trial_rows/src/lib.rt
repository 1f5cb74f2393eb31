//! Rows of words for the program of trials, which reads its rows from the standard input and writes a line for each, so
//! that the cases of a test are data beside the program, and so is what each must come to.
//!
//! A line is one row: words, with one space between two. A word is a number in decimal, or bytes: `-` is none, `0x` and
//! hex digits are just those bytes, and anything else is its own bytes, with `%` and two hex digits for a byte that does
//! not stand for itself (a space is `%20`). A line that begins with `#` is a heading and is written as it is, an empty
//! line likewise.
//!
//! Beside that stands what several kinds of rows speak of: the six files of a base in memory, what is asked of an area,
//! and replies in words.
#![tactic(auto)]

mod asking;
mod error;
mod files;
mod row;
mod same;
mod showing;
mod words;

pub use asking::{
    Act, Caller, MOMENT, act_of, caller_at, caller_in, command_by, plain_area, rules_of,
};
pub use error::RowError;
pub use files::{Files, file_at, file_of};
pub use row::{Row, is_heading};
pub use same::same_area;
pub use showing::put_reply;
pub use words::Words;
