//! What a menu does.

use crate::state::State;
use jb_base::Bytes;
use jb_model::Command;
use jb_state::{Question, Short};

/// How a session ends by its menu.
#[derive(Clone, Copy, Debug, PartialEq, Eq)]
pub enum MenuEnd {
    /// The user leaves.
    Quit,
    /// Three log-ins were refused.
    LoginRefused,
}

/// What a menu does next. An area is named by its place on the board, counted from 0. The texts are as they are shown, with
/// CR LF at the ends of their lines; the byte 255 is not doubled.
#[derive(Drop)]
pub enum Move {
    /// Says this text and waits for a line, which is typed unseen where the mask is on.
    Say { text: Bytes, mask: bool },
    /// Asks the area to do this for the user.
    Ask { area: u32, command: Command },
    /// Asks the area this for the user.
    Look { area: u32, question: Question },
    /// Asks how many messages of the area the user has not read.
    Count { area: u32 },
    /// Sends this text as a page to a node of the board.
    Send { to: u32, text: Short<72> },
    /// Takes the oldest page that waits for the node of the session.
    Take,
    /// Says this text, and the session is over.
    End { text: Bytes, end: MenuEnd },
}

/// A move, and the state after it.
#[derive(Drop)]
pub struct Moved {
    pub step: Move,
    pub state: State,
}
