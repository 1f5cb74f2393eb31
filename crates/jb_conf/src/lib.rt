//! The settings file of a board, read, and the log-in of its users. The file is a TOML document (TOML 1.1); the README of this
//! crate has the table of its fields.
//!
//! The layer above may rely on this: [`read`] gives the board that the document says, with every value in its range, else
//! the first test in the order of the table that the document fails; [`check_login`] gives the user who logs in, and none
//! exactly where nobody does.
#![tactic(auto)]

mod area;
mod board;
mod document;
mod error;
mod explaining;
mod field;
mod lists;
mod login;
mod reading;
mod rows;
mod tables;
mod unknown;
mod user;

pub use board::{Board, BoardArea, BoardUser};
pub use error::ConfError;
pub use explaining::explanation;
pub use field::{AreaKey, BoardKey, Field, FieldName, UserKey};
pub use lists::{BoardAreas, BoardUsers, Text, Texts};
pub use login::check_login;
pub use reading::read;
