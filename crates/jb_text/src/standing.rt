//! The names of the texts that are always the same.

/// A text that is always the same. [`crate::fixed`] gives it.
#[derive(Clone, Copy, PartialEq, Eq)]
pub enum Fixed {
    /// Asks for the user's name.
    AskName,
    /// Asks for the password.
    AskPassword,
    /// The name or the password is wrong.
    LoginIncorrect,
    /// The session ends.
    Goodbye,
    /// No area that the user may read has this number.
    NoSuchArea,
    /// The user has read all.
    NoUnread,
    /// There is no message to answer.
    NoMessageShown,
    /// Asks for the receiver of a message.
    AskTo,
    /// Asks for its subject.
    AskSubject,
    /// Asks for another subject of a message that is edited.
    AskEdit,
    /// Asks whether it is private.
    AskPrivate,
    /// The message is not sent.
    Cancelled,
    /// A line of a text does not fit.
    TextFull,
    /// How a text is ended or cancelled.
    TextLine,
    /// The list is empty.
    Nothing,
    /// The board has no node with this number.
    NoSuchNode,
    /// Asks for the text of a page.
    AskPage,
    /// The page is sent.
    PageSent,
    /// The node sends no more pages.
    PagesSpent,
    /// No page waits for the node.
    NoPages,
    /// The line is no command.
    UnknownCommand,
    /// The prompt outside of any area.
    TopPrompt,
}
