//! What a user asks of an area.

use jb_base::{Bytes, Name, User};

/// One act on an area. Numbers are message numbers; 0 names no message.
#[derive(Debug)]
pub enum Command {
    /// A new message to this receiver, in reply to a message or to none, with PRIVATE where it is private.
    Post {
        to: Name,
        subject: Bytes,
        text: Bytes,
        reply_to: u32,
        private: bool,
    },
    /// The message gets another subject and another text; all else of it stays.
    Edit {
        number: u32,
        subject: Bytes,
        text: Bytes,
    },
    /// The message is shown and counted as read.
    Read {
        number: u32,
    },
    /// The message is shown, and nothing changes.
    Peek {
        number: u32,
    },
    /// The message is killed; its number stays taken.
    Kill {
        number: u32,
    },
    /// The user's mark is set to this number; 0 marks all as unread.
    SetMark {
        number: u32,
    },
    /// What was killed is dropped, and the files are written anew without gaps.
    Pack,
    /// The reply links of all live messages are computed anew.
    Relink,
}

// Whoever lets go of one does so in one call.
impl Drop for Command {
    fn drop(self) {
        match self {
            Command::Post {
                to: _to,
                subject: _subject,
                text: _text,
                reply_to: _reply_to,
                private: _private,
            } => {}
            Command::Edit {
                number: _number,
                subject: _subject,
                text: _text,
            } => {}
            Command::Read { number: _number } => {}
            Command::Peek { number: _number } => {}
            Command::Kill { number: _number } => {}
            Command::SetMark { number: _number } => {}
            Command::Pack => {}
            Command::Relink => {}
        }
    }
}

/// A part of a message that is posted or edited.
#[derive(Clone, Copy, Debug, PartialEq, Eq)]
pub enum Field {
    To,
    Subject,
    Text,
}

/// A command with the user who asks and the moment at which it is asked, in seconds since 1970.
pub struct Asked {
    pub user: User,
    pub moment: u32,
    pub command: Command,
}

// Whoever lets go of one does so in one call.
impl Drop for Asked {
    fn drop(self) {
        let Asked {
            user: _user,
            moment: _moment,
            command: _command,
        } = self;
    }
}
