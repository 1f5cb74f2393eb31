//! Where a menu is.

ghost use Rattle.std.specs.Prelude.{◌≡◌};
ghost use Rattle.jb_model.specs.declared.command.Command.TheVariants.{Post};
ghost use Rattle.jb_menu.specs.Pages.{user_at};
ghost use Rattle.jb_menu.specs.Writing.{drafted};

use jb_base::{Bytes, Name};
use jb_model::Command;

/// What is kept of the message that was shown last, to answer it.
pub struct Shown {
    pub number: u32,
    pub from: Name,
    pub subject: Bytes,
    pub private: bool,
}

// Whoever lets go of one does so in one call.
impl Drop for Shown {
    fn drop(self) {
        let Shown {
            number: _number,
            from: _from,
            subject: _subject,
            private: _private,
        } = self;
    }
}

/// A user in an area, each by its place on the board, and the message that was shown last since the user entered it.
pub struct Visit {
    pub user: u32,
    pub area: u32,
    pub shown: Option<Shown>,
}

// Whoever lets go of one does so in one call.
impl Drop for Visit {
    fn drop(self) {
        let Visit {
            user: _user,
            area: _area,
            shown: _shown,
        } = self;
    }
}

/// A new message: all of it but its text. It answers no message where that number is 0.
pub struct DraftHead {
    pub to: Name,
    pub subject: Bytes,
    pub reply_to: u32,
    pub private: bool,
}

// Whoever lets go of one does so in one call.
impl Drop for DraftHead {
    fn drop(self) {
        let DraftHead {
            to: _to,
            subject: _subject,
            reply_to: _reply_to,
            private: _private,
        } = self;
    }
}

impl DraftHead {
    /// The command that posts it with this text.
    pub(crate) fn posted(self, text: Bytes) -> Command
        ensures { result ≡ Post self.to self.subject text self.reply_to self.private }
    {
        let DraftHead {
            to,
            subject,
            reply_to,
            private,
        } = self;
        Command::Post {
            to,
            subject,
            text,
            reply_to,
            private,
        }
    }
}

/// A message that is written: all of it but its text.
pub enum Composing {
    /// A new message.
    New(DraftHead),
    /// Another subject, and another text to come, for the message with this number.
    Edit { number: u32, subject: Bytes },
}

// Whoever lets go of one does so in one call.
impl Drop for Composing {
    fn drop(self) {
        match self {
            Composing::New(_held) => {}
            Composing::Edit {
                number: _number,
                subject: _subject,
            } => {}
        }
    }
}

impl Composing {
    /// The command that posts or edits it with this text.
    pub(crate) fn asked(self, text: Bytes) -> Command
        ensures { result ≡ drafted self text }
    {
        match self {
            Composing::New(head) => head.posted(text),
            Composing::Edit { number, subject } => Command::Edit {
                number,
                subject,
                text,
            },
        }
    }
}

/// What a menu waits for in an area.
#[derive(Drop)]
pub enum MenuStage {
    /// A command.
    Prompt,
    /// The messages of a list.
    Listing,
    /// The first message that the user has not read.
    Seeking,
    /// The message that is read; where it marks, its number becomes the user's mark before it is shown.
    Reading { marks: bool },
    /// The user's mark, before this text of a message is said.
    Marking { letter: Bytes },
    /// The message that is to be edited, of which nothing is shown.
    Peeking,
    /// The reply to another command, which is said.
    Acting,
    /// The receiver of a new message.
    To,
    /// Its subject.
    Subject { to: Name },
    /// Whether it is private.
    Private { to: Name, subject: Bytes },
    /// Another subject of the message with this number, which has this one.
    EditSubject { number: u32, subject: Bytes },
    /// A line of the text of a message, behind the text so far.
    Text { draft: Composing, text: Bytes },
}

/// Where a user is who sends or takes pages: outside of the areas, or at the prompt of one.
#[derive(Drop)]
pub enum At {
    Top { user: u32 },
    Area { visit: Visit },
}

impl At {
    /// The place of the user on the board.
    pub(crate) fn user(&self) -> u32
        ensures { result ≡ user_at self.now }
    {
        match self {
            At::Top { user } => *user,
            At::Area { visit } => visit.user,
        }
    }
}

/// What a menu waits for where pages are sent or taken.
#[derive(Drop)]
pub enum PageStage {
    /// The text of a page to this node.
    Writing { to: u32 },
    /// Whether the page was sent.
    Sending,
    /// The next page, behind the lines of those before it. So many more are taken at most.
    Taking { lines: Bytes, left: u32 },
}

/// What a menu waits for.
#[derive(Drop)]
pub enum State {
    /// A name, after so many refused log-ins.
    Name { refused: u8 },
    /// The password of this name.
    Password { refused: u8, name: Name },
    /// A command outside of the areas.
    Top { user: u32 },
    /// How much of this area is unread, behind the lines of the areas before it.
    Counting { user: u32, area: u32, lines: Bytes },
    /// The figures of the area that the user enters.
    Entering { user: u32, area: u32 },
    /// Something in an area.
    Area { visit: Visit, stage: MenuStage },
    /// Something of pages, sent or taken there.
    Paging { at: At, stage: PageStage },
    /// Nothing: the session is over.
    Ended,
}
