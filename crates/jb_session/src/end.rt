//! How a session ends.
ghost use Rattle.std.specs.Prelude.{◌≡◌, ◌≢◌};
ghost use Rattle.jb_session.specs.Ends.{end_as, session_end};
ghost use Rattle.jb_session.specs.declared.end.SessionEnd.TheVariants.{LinkFault as link_fault, OutOfMemory as no_memory};

use jb_base::OutOfMemory;
use jb_host::LinkFailed;
use jb_speech::TalkEnd;

/// How a session ends.
#[derive(Clone, Copy, PartialEq, Eq)]
pub enum SessionEnd {
    /// The user leaves.
    Quit,
    /// The caller hangs up: the link is at the end of its input.
    Hangup,
    /// Three log-ins were refused.
    LoginRefused,
    /// The link failed. Nothing more is sent.
    LinkFault,
    /// As many bytes came as one session takes.
    Spent,
    /// Memory was wanting. Nothing more is sent.
    OutOfMemory,
}

/// How a session of a news reader ends.
#[derive(Clone, Copy, PartialEq, Eq)]
pub enum NewsEnd {
    /// The reader quits.
    Quit,
    /// The reader hangs up: the link is at the end of its input.
    Hangup,
    /// The link failed. Nothing more is sent.
    LinkFault,
    /// As many bytes came as one session takes.
    Spent,
    /// Memory was wanting, or an area's answer in the middle of a list. Nothing more is sent.
    OutOfMemory,
}

impl From<NewsEnd> for SessionEnd {
    ghost from_gives = { λ news end. end ≡ session_end news };

    fn from(news: NewsEnd) -> SessionEnd {
        match news {
            NewsEnd::Quit => SessionEnd::Quit,
            NewsEnd::Hangup => SessionEnd::Hangup,
            NewsEnd::LinkFault => SessionEnd::LinkFault,
            NewsEnd::Spent => SessionEnd::Spent,
            NewsEnd::OutOfMemory => SessionEnd::OutOfMemory,
        }
    }
}

impl From<LinkFailed> for SessionEnd {
    ghost from_gives = { λ _ end. end ≡ link_fault };

    fn from(_: LinkFailed) -> SessionEnd {
        SessionEnd::LinkFault
    }
}

impl From<OutOfMemory> for SessionEnd {
    ghost from_gives = { λ _ end. end ≡ no_memory };

    fn from(_: OutOfMemory) -> SessionEnd {
        SessionEnd::OutOfMemory
    }
}

/// The end of a session whose talk is over.
pub(crate) fn ended(end: TalkEnd) -> SessionEnd
    requires { end ≢ TalkEnd.Hangup }
    ensures { result ≡ end_as end }
{
    match end {
        TalkEnd::Quit => SessionEnd::Quit,
        TalkEnd::LoginRefused => SessionEnd::LoginRefused,
        TalkEnd::Spent => SessionEnd::Spent,
        TalkEnd::Hangup => unreachable!(),
        TalkEnd::Unanswered | TalkEnd::OutOfMemory => SessionEnd::OutOfMemory,
    }
}
