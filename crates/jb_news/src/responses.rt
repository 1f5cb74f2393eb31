//! What is answered without a number or a name in it.
ghost use Rattle.std.specs.Prelude.{◌≡◌, IfOk, OnOk, ◌++◌};
ghost use Rattle.jb_news.specs.Responses.{end_text, greeting_text, response_text};

use crate::writing::append_shown;
use jb_base::{Bytes, OutOfMemory};
use jb_text::append_line_end;
use std::alloc::Global;

/// An answer that is always the same. [`response`] gives it.
#[derive(Clone, Copy, PartialEq, Eq)]
pub enum FixedResponse {
    /// What the server can do.
    Capabilities,
    /// The commands.
    Help,
    /// A reader is welcome, and posts nothing.
    NoPosting,
    /// The connection ends.
    Bye,
    /// A list of groups begins.
    Groups,
    /// The fields of an overview.
    OverviewFormat,
    /// An overview begins.
    Overview,
    /// No group is new.
    NewGroups,
    /// The area gave no answer.
    Fault,
    NoSuchGroup,
    /// No group is chosen.
    NoGroup,
    /// No article is current.
    NoCurrent,
    NoNext,
    NoPrevious,
    NoSuchNumber,
    NoSuchArticle,
    /// An article may not be sent.
    NotPosted,
    Unknown,
    Syntax,
    /// A list or an overview of this kind is not kept.
    NotKept,
}

/// The bytes of an answer.
fn bytes_of(answer: FixedResponse) -> &'static [u8]
    ensures { result.now ≡ response_text answer }
{
    match answer {
        FixedResponse::Capabilities => {
            b"101 Capabilities\r\nVERSION 2\r\nREADER\r\nOVER\r\nLIST ACTIVE NEWSGROUPS OVERVIEW.FMT\r\n.\r\n"
        }
        FixedResponse::Help => {
            b"100 Help\r\nCAPABILITIES MODE HELP QUIT LIST GROUP ARTICLE HEAD BODY STAT\r\nLISTGROUP NEXT LAST OVER DATE NEWGROUPS POST\r\n.\r\n"
        }
        FixedResponse::NoPosting => b"201 No posting\r\n",
        FixedResponse::Bye => b"205 Bye\r\n",
        FixedResponse::Groups => b"215 Groups\r\n",
        FixedResponse::OverviewFormat => {
            b"215 Fields\r\nSubject:\r\nFrom:\r\nDate:\r\nMessage-ID:\r\nReferences:\r\nBytes:\r\nLines:\r\n.\r\n"
        }
        FixedResponse::Overview => b"224 Overview\r\n",
        FixedResponse::NewGroups => b"231 New groups\r\n.\r\n",
        FixedResponse::Fault => b"403 Fault\r\n",
        FixedResponse::NoSuchGroup => b"411 No such group\r\n",
        FixedResponse::NoGroup => b"412 No group\r\n",
        FixedResponse::NoCurrent => b"420 No current article\r\n",
        FixedResponse::NoNext => b"421 No next article\r\n",
        FixedResponse::NoPrevious => b"422 No previous article\r\n",
        FixedResponse::NoSuchNumber => b"423 No such number\r\n",
        FixedResponse::NoSuchArticle => b"430 No such article\r\n",
        FixedResponse::NotPosted => b"440 No posting\r\n",
        FixedResponse::Unknown => b"500 Unknown\r\n",
        FixedResponse::Syntax => b"501 Syntax\r\n",
        FixedResponse::NotKept => b"503 Not kept\r\n",
    }
}

/// An answer that is always the same, with the ends of its lines.
pub fn response(alloc: Global, answer: FixedResponse) -> Result<Bytes, OutOfMemory>
    ensures { IfOk result (λ text. text ≡ response_text answer) }
{
    Bytes::copy(alloc, bytes_of(answer))
}

/// What a connection begins with: the board's name.
pub fn greeting(alloc: Global, board: &[u8]) -> Result<Bytes, OutOfMemory>
    ensures { IfOk result (λ text. text ≡ greeting_text board.now) }
{
    let mut text = Bytes::copy(alloc, b"201 ")?;
    append_shown(&mut text, board)?;
    append_line_end(&mut text)?;
    Ok(text)
}

/// Puts the end of a block behind a text: a line with a stop.
pub fn append_end(text: &mut Bytes) -> Result<(), OutOfMemory>
    ensures { OnOk result (text.new ≡ text.old ++ end_text) }
{
    text.append(b".\r\n")
}
