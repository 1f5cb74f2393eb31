//! A message that is written.
ghost use Rattle.std.specs.Prelude.{◌≡◌, ◌<◌, ◌^◌, ◌++◌, [], ◌∷◌, IfOk, length};
ghost use Rattle.jb_text.specs.Fixed.{fixed_text};
ghost use Rattle.jb_text.specs.Letter.{line};
ghost use Rattle.jb_text.specs.Lines.{replying_text};
ghost use Rattle.jb_menu.specs.Writing.{answer_subject, answering_draft, done_row, has_re, marked_subject, more_row, private_row, reply_row, says_yes, subject_row, text_row, to_row};

use crate::Given;
use crate::area::ask;
use crate::lines::{append_line, first_bytes, fixed_line, fixed_to_area, passed_over, say, whole};
use crate::moves::Moved;
use crate::state::{Composing, DraftHead, MenuStage, Shown, State, Visit};
use jb_base::{Bytes, MOST_POSTED_TEXT_BYTES, MOST_SUBJECT_BYTES, Name, OutOfMemory};
use jb_conf::Board;
use jb_text::{Fixed, fixed, replying};
use std::alloc::Global;

/// Whether a subject says already that it is an answer.
fn is_answer(subject: &[u8]) -> bool
    ensures { result ≡ has_re subject.now }
{
    subject.starts_with(b"Re: ")
}

/// A subject that says that it is an answer.
fn marked_subject(alloc: Global, subject: &[u8]) -> Result<Bytes, OutOfMemory>
    ensures { IfOk result (λ marked. marked ≡ marked_subject subject.now) }
{
    if is_answer(subject) {
        Bytes::copy(alloc, subject)
    } else {
        let mut marked = Bytes::copy(alloc, b"Re: ")?;
        marked.append(subject)?;
        Ok(marked)
    }
}

/// The subject of the answer to a message with this one.
fn answer_subject(alloc: Global, subject: &[u8]) -> Result<Bytes, OutOfMemory>
    ensures { IfOk result (λ answer. answer ≡ answer_subject subject.now) }
{
    let marked = marked_subject(alloc, subject)?;
    Bytes::copy(alloc, first_bytes(marked.as_slice(), MOST_SUBJECT_BYTES))
}

/// The answer to a message, without its text.
fn answer_to(alloc: Global, shown: &Shown) -> Result<DraftHead, OutOfMemory>
    ensures { IfOk result (λ draft. draft ≡ answering_draft shown.now) }
{
    Ok(DraftHead {
        to: Name::copy(alloc, shown.from.as_slice())?,
        subject: answer_subject(alloc, shown.subject.as_slice())?,
        reply_to: shown.number,
        private: shown.private,
    })
}

/// What is said before the text of an answer is typed.
fn replying_lines(alloc: Global, from: &[u8], subject: &[u8]) -> Result<Bytes, OutOfMemory>
    ensures { IfOk result (λ text. text ≡ line (replying_text from.now subject.now) ++ line
        (fixed_text Fixed.TextLine)) }
{
    let line = whole(replying(alloc, from, subject)?)?;
    append_line(line, fixed(alloc, Fixed::TextLine)?.as_slice())
}

/// The answer to a message, which waits for its text, and what is said then.
fn answering(alloc: Global, shown: &Shown) -> Result<(Bytes, MenuStage), OutOfMemory>
    ensures { IfOk result (λ begun. (begun.0 ≡ line (replying_text shown.now.from
        (answer_subject shown.now.subject)) ++ line (fixed_text Fixed.TextLine))
        × (begun.1 ≡ MenuStage.Text (Composing.New (answering_draft shown.now)) [])) }
{
    let head = answer_to(alloc, shown)?;
    let said = replying_lines(alloc, shown.from.as_slice(), head.subject.as_slice())?;
    let draft = Composing::New(head);
    let text = Bytes::new(alloc);
    Ok((said, MenuStage::Text { draft, text }))
}

/// Waits for the text of the answer to the message that was shown last.
pub fn reply(alloc: Global, board: &Board, visit: Visit) -> Result<Moved, OutOfMemory>
    requires { visit.area < length board.now.areas }
    ensures { IfOk result (λ moved. moved ≡ reply_row board.now visit visit.shown) }
{
    let Some(shown) = &visit.shown else {
        return fixed_to_area(alloc, board, visit, Fixed::NoMessageShown);
    };
    let (text, stage) = answering(alloc, shown)?;
    Ok(say(text, State::Area { visit, stage }))
}

/// Waits for the receiver of a message.
pub fn to(alloc: Global, board: &Board, visit: Visit, given: &Given) -> Result<Moved, OutOfMemory>
    requires { visit.area < length board.now.areas }
    ensures { IfOk result (λ moved. moved ≡ to_row board.now visit given.now) }
{
    match given {
        Given::Line(line) => receiver(alloc, board, visit, line.as_slice()),
        _ => {
            let stage = MenuStage::To;
            Ok(passed_over(alloc, State::Area { visit, stage }))
        }
    }
}

/// The receiver of a message.
fn receiver(alloc: Global, board: &Board, visit: Visit, typed: &[u8]) -> Result<Moved, OutOfMemory>
    requires { visit.area < length board.now.areas }
    ensures { IfOk result (λ moved. moved ≡ to_row board.now visit (Given.Line typed.now)) }
{
    if typed.is_empty() {
        fixed_to_area(alloc, board, visit, Fixed::Cancelled)
    } else {
        let text = fixed(alloc, Fixed::AskSubject)?;
        let to = Name::copy(alloc, typed)?;
        let stage = MenuStage::Subject { to };
        Ok(say(text, State::Area { visit, stage }))
    }
}

/// Waits for the subject of a message to this receiver.
pub fn subject(alloc: Global, visit: Visit, to: Name, given: &Given) -> Result<Moved, OutOfMemory>
    ensures { IfOk result (λ moved. moved ≡ subject_row visit to given.now) }
{
    match given {
        Given::Line(line) => {
            let text = fixed(alloc, Fixed::AskPrivate)?;
            let subject = Bytes::copy(alloc, line.as_slice())?;
            let stage = MenuStage::Private { to, subject };
            Ok(say(text, State::Area { visit, stage }))
        }
        _ => {
            let stage = MenuStage::Subject { to };
            Ok(passed_over(alloc, State::Area { visit, stage }))
        }
    }
}

/// Whether a line says yes: a `Y` alone, in either case.
fn says_yes(typed: &[u8]) -> bool
    ensures { result ≡ says_yes typed.now }
{
    matches!(typed, b"Y" | b"y")
}

/// Waits for whether a message is private.
pub fn private(
    alloc: Global,
    visit: Visit,
    to: Name,
    subject: Bytes,
    given: &Given,
) -> Result<Moved, OutOfMemory>
    ensures { IfOk result (λ moved. moved ≡ private_row visit to subject given.now) }
{
    match given {
        Given::Line(line) => {
            let text = fixed_line(alloc, Fixed::TextLine)?;
            let draft = Composing::New(DraftHead {
                to,
                subject,
                reply_to: 0,
                private: says_yes(line.as_slice()),
            });
            let stage = MenuStage::Text {
                draft,
                text: Bytes::new(alloc),
            };
            Ok(say(text, State::Area { visit, stage }))
        }
        _ => {
            let stage = MenuStage::Private { to, subject };
            Ok(passed_over(alloc, State::Area { visit, stage }))
        }
    }
}

/// Posts a message, or edits it.
fn done(visit: Visit, draft: Composing, text: Bytes) -> Moved
    ensures { result ≡ done_row visit draft text }
{
    ask(visit, draft.asked(text), MenuStage::Acting)
}

/// A text with this line behind it.
fn with_line(text: Bytes, typed: &[u8]) -> Result<Bytes, OutOfMemory>
    ensures { IfOk result (λ longer. longer ≡ text ++ typed.now ++ 13 ∷ []) }
{
    let mut text = text;
    text.append(typed)?;
    text.append(b"\r")?;
    Ok(text)
}

/// Puts a line behind a text, where it fits.
fn more(
    alloc: Global,
    visit: Visit,
    draft: Composing,
    text: Bytes,
    typed: &[u8],
) -> Result<Moved, OutOfMemory>
    requires { length typed.now < 2 ^ 32 }
    ensures { IfOk result (λ moved. moved ≡ more_row visit draft text typed.now) }
{
    if text.len() + typed.len() + 1 > MOST_POSTED_TEXT_BYTES {
        let said = fixed_line(alloc, Fixed::TextFull)?;
        let full = MenuStage::Text { draft, text };
        Ok(say(said, State::Area { visit, stage: full }))
    } else {
        let text = with_line(text, typed)?;
        let stage = MenuStage::Text { draft, text };
        Ok(say(Bytes::new(alloc), State::Area { visit, stage }))
    }
}

/// A line of the text of a message.
fn text_line(
    alloc: Global,
    board: &Board,
    visit: Visit,
    draft: Composing,
    text: Bytes,
    typed: &[u8],
) -> Result<Moved, OutOfMemory>
    requires area { visit.area < length board.now.areas }
    requires line { length typed.now < 2 ^ 32 }
    ensures { IfOk result (λ moved. moved ≡ text_row board.now visit draft text (Given.Line typed.now)) }
{
    match typed {
        b"." => Ok(done(visit, draft, text)),
        b"!" => fixed_to_area(alloc, board, visit, Fixed::Cancelled),
        _ => more(alloc, visit, draft, text, typed),
    }
}

/// Waits for a line of the text of a message.
pub fn text(
    alloc: Global,
    board: &Board,
    visit: Visit,
    draft: Composing,
    text: Bytes,
    given: &Given,
) -> Result<Moved, OutOfMemory>
    requires { visit.area < length board.now.areas }
    ensures { IfOk result (λ moved. moved ≡ text_row board.now visit draft text given.now) }
{
    match given {
        Given::Line(line) => text_line(alloc, board, visit, draft, text, line.as_slice()),
        _ => {
            let stage = MenuStage::Text { draft, text };
            Ok(passed_over(alloc, State::Area { visit, stage }))
        }
    }
}
