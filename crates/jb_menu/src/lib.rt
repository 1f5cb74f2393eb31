//! The menus of a session: what is said and asked in each state, given a line or an answer, and the state after it.
//!
//! The layer above may rely on the table in `specs/`, a row for each state: each move of a [`Menu`] is the one that
//! `MenuStep` says. It does nothing itself: it gives moves, and is given what came of them. All texts are those of jb_text,
//! with the prompts behind them; the byte 255 is not doubled. A step takes a time and memory that grow as what it is given
//! and what it says; the README has the longest.
#![tactic(auto)]

mod answers;
mod area;
mod board;
mod command_line;
mod editing;
mod given;
mod lines;
mod login;
mod menu;
mod moves;
mod pages;
mod state;
mod top;
mod writing;

pub use given::Given;
pub use menu::Menu;
pub use moves::{MenuEnd, Move};
