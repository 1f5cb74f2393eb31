//! How a conversation ends.

/// How a conversation ends, where no more bytes and answers come.
#[derive(Clone, Copy, PartialEq, Eq)]
pub enum TalkEnd {
    /// The caller hangs up.
    Hangup,
    /// An answer is missing.
    Unanswered,
    /// The user leaves.
    Quit,
    /// Three log-ins were refused.
    LoginRefused,
    /// As many bytes came as one session takes.
    Spent,
    /// Memory was wanting.
    OutOfMemory,
}
