//! What a talk asks.

use jb_model::Command;
use jb_state::{Question, Short};

/// What an area is asked.
pub enum Act {
    /// To do this; the answer is a reply.
    Ask(Command),
    /// This; the answer is one to the question.
    Look(Question),
    /// How many of its messages the user has not read.
    Count,
}

// Whoever lets go of one does so in one call.
impl Drop for Act {
    fn drop(self) {
        match self {
            Act::Ask(_held) => {}
            Act::Look(_held) => {}
            Act::Count => {}
        }
    }
}

/// What an area is asked for a user, each by its place on the board, counted from 0.
pub struct AreaRequest {
    pub user: u32,
    pub area: u32,
    pub act: Act,
}

// Whoever lets go of one does so in one call.
impl Drop for AreaRequest {
    fn drop(self) {
        let AreaRequest {
            user: _user,
            area: _area,
            act: _act,
        } = self;
    }
}

/// What is asked, of an area or of the node itself.
pub enum Request {
    /// This of an area.
    Area(AreaRequest),
    /// What the node's clock shows.
    Clock,
    /// That this text is sent as a page to a node; the answer is whether it was.
    Send { to: u32, text: Short<72> },
    /// The next page that waits for this node, where there is one.
    Take,
}

// Whoever lets go of one does so in one call.
impl Drop for Request {
    fn drop(self) {
        match self {
            Request::Area(_held) => {}
            Request::Clock => {}
            Request::Send {
                to: _to,
                text: _text,
            } => {}
            Request::Take => {}
        }
    }
}
