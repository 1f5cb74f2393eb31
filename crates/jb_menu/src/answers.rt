//! What an area answers.
ghost use Rattle.std.specs.Prelude.{◌≡◌, ◌<◌, ◌++◌, IfOk, OnOk, length};
ghost use Rattle.jb_text.specs.Faults.{fault_text};
ghost use Rattle.jb_text.specs.Letter.{line};
ghost use Rattle.jb_text.specs.Replies.{reply_text};
ghost use Rattle.jb_menu.specs.Answers.{acting_row, list_lines, listing_line, listing_row, marking_row, reading_row, seeking_row, shown_of, with_shown};

use crate::Given;
use crate::area::ask;
use crate::lines::{
    append_line, fault_to_area, fixed_line, fixed_to_area, passed_over, reply_to_area, to_area,
};
use crate::moves::Moved;
use crate::state::{MenuStage, Shown, State, Visit};
use jb_base::{Bytes, Name, OutOfMemory, PRIVATE};
use jb_conf::Board;
use jb_model::{Command, Letter, Reply};
use jb_state::{Answer, SharedFault, Summary};
use jb_text::{Fixed, append_line_end, fault, letter, listing, reply};
use std::alloc::Global;

/// Puts the line of a message behind these lines.
fn append_listing(alloc: Global, lines: &mut Bytes, one: &Summary) -> Result<(), OutOfMemory>
    ensures { OnOk result (lines.new ≡ lines.old ++ listing_line one.now) }
{
    let line = listing(
        alloc,
        one.number,
        one.from.as_slice(),
        one.to.as_slice(),
        one.subject.as_slice(),
    )?;
    lines.append(line.as_slice())?;
    append_line_end(lines)?;
    Ok(())
}

/// The lines of a list.
fn list_lines(alloc: Global, messages: &[Summary]) -> Result<Bytes, OutOfMemory>
    ensures { IfOk result (λ lines. lines ≡ list_lines messages.now) }
{
    if messages.is_empty() {
        return fixed_line(alloc, Fixed::Nothing);
    }
    let mut lines = Bytes::new(alloc);
    for one in messages {
        append_listing(alloc, &mut lines, one)?;
    }
    Ok(lines)
}

/// Waits for the messages of a list.
pub fn listing_messages(
    alloc: Global,
    board: &Board,
    visit: Visit,
    given: &Given,
) -> Result<Moved, OutOfMemory>
    requires { visit.area < length board.now.areas }
    ensures { IfOk result (λ moved. moved ≡ listing_row board.now visit given.now) }
{
    match given {
        Given::Answer(Answer::Summaries(messages)) => {
            let lines = list_lines(alloc, messages.as_slice())?;
            to_area(alloc, board, visit, lines)
        }
        Given::Fault(why) => fault_to_area(alloc, board, visit, why),
        _ => {
            let stage = MenuStage::Listing;
            Ok(passed_over(alloc, State::Area { visit, stage }))
        }
    }
}

/// Reads the first of these messages, to mark it.
fn read_first(
    alloc: Global,
    board: &Board,
    visit: Visit,
    messages: &[Summary],
) -> Result<Moved, OutOfMemory>
    requires { visit.area < length board.now.areas }
    ensures { IfOk result (λ moved. moved
        ≡ seeking_row board.now visit (Given.Answer (Answer.Summaries messages.now))) }
{
    match messages {
        [] => fixed_to_area(alloc, board, visit, Fixed::NoUnread),
        [first, ..] => {
            let number = first.number;
            let stage = MenuStage::Reading { marks: true };
            Ok(ask(visit, Command::Read { number }, stage))
        }
    }
}

/// Waits for the first message that the user has not read.
pub fn seeking(
    alloc: Global,
    board: &Board,
    visit: Visit,
    given: &Given,
) -> Result<Moved, OutOfMemory>
    requires { visit.area < length board.now.areas }
    ensures { IfOk result (λ moved. moved ≡ seeking_row board.now visit given.now) }
{
    match given {
        Given::Answer(Answer::Summaries(messages)) => {
            read_first(alloc, board, visit, messages.as_slice())
        }
        Given::Fault(why) => fault_to_area(alloc, board, visit, why),
        _ => {
            let stage = MenuStage::Seeking;
            Ok(passed_over(alloc, State::Area { visit, stage }))
        }
    }
}

/// What is kept of a message that is shown.
fn shown_of(alloc: Global, message: &Letter) -> Result<Shown, OutOfMemory>
    ensures { IfOk result (λ shown. shown ≡ shown_of message.now) }
{
    Ok(Shown {
        number: message.number,
        from: Name::copy(alloc, message.from.as_slice())?,
        subject: Bytes::copy(alloc, message.subject.as_slice())?,
        private: message.attribute & PRIVATE != 0,
    })
}

/// The visit in which this message was shown last.
fn with_shown(alloc: Global, visit: Visit, message: &Letter) -> Result<Visit, OutOfMemory>
    ensures { IfOk result (λ after. after ≡ with_shown visit message.now) }
{
    Ok(Visit {
        user: visit.user,
        area: visit.area,
        shown: Some(shown_of(alloc, message)?),
    })
}

/// Shows a message, or asks for the mark of its number first.
fn show(
    alloc: Global,
    board: &Board,
    visit: Visit,
    marks: bool,
    message: &Letter,
) -> Result<Moved, OutOfMemory>
    requires area { visit.area < length board.now.areas }
    ensures { IfOk result (λ moved. moved
        ≡ reading_row board.now visit marks (Given.Reply (Reply.Text message.now))) }
{
    let text = letter(alloc, message, board.offset)?;
    let visit = with_shown(alloc, visit, message)?;
    if marks {
        let number = message.number;
        let stage = MenuStage::Marking { letter: text };
        Ok(ask(visit, Command::SetMark { number }, stage))
    } else {
        to_area(alloc, board, visit, text)
    }
}

/// Waits for the message that is read.
pub fn reading(
    alloc: Global,
    board: &Board,
    visit: Visit,
    marks: bool,
    given: &Given,
) -> Result<Moved, OutOfMemory>
    requires area { visit.area < length board.now.areas }
    ensures { IfOk result (λ moved. moved ≡ reading_row board.now visit marks given.now) }
{
    match given {
        Given::Reply(Reply::Text { letter }) => show(alloc, board, visit, marks, letter),
        Given::Reply(refusal) => reply_to_area(alloc, board, visit, refusal),
        Given::Fault(why) => fault_to_area(alloc, board, visit, why),
        _ => {
            let stage = MenuStage::Reading { marks };
            Ok(passed_over(alloc, State::Area { visit, stage }))
        }
    }
}

/// Puts the line of a reply behind these.
fn append_reply(alloc: Global, lines: Bytes, answer: &Reply) -> Result<Bytes, OutOfMemory>
    ensures { IfOk result (λ text. text ≡ lines ++ line (reply_text answer.now)) }
{
    let one = reply(alloc, answer)?;
    append_line(lines, one.as_slice())
}

/// Puts the line of a fault behind these.
fn append_fault(alloc: Global, lines: Bytes, why: &SharedFault) -> Result<Bytes, OutOfMemory>
    ensures { IfOk result (λ text. text ≡ lines ++ line (fault_text why.now)) }
{
    let one = fault(alloc, why)?;
    append_line(lines, one.as_slice())
}

/// Waits for the user's mark, before this text of a message is said.
pub fn marking(
    alloc: Global,
    board: &Board,
    visit: Visit,
    text: Bytes,
    given: &Given,
) -> Result<Moved, OutOfMemory>
    requires { visit.area < length board.now.areas }
    ensures { IfOk result (λ moved. moved ≡ marking_row board.now visit text given.now) }
{
    match given {
        Given::Reply(Reply::Marked { .. }) => to_area(alloc, board, visit, text),
        Given::Reply(answer) => {
            let lines = append_reply(alloc, text, answer)?;
            to_area(alloc, board, visit, lines)
        }
        Given::Fault(why) => {
            let lines = append_fault(alloc, text, why)?;
            to_area(alloc, board, visit, lines)
        }
        _ => {
            let stage = MenuStage::Marking { letter: text };
            Ok(passed_over(alloc, State::Area { visit, stage }))
        }
    }
}

/// Waits for the reply to another command.
pub fn acting(
    alloc: Global,
    board: &Board,
    visit: Visit,
    given: &Given,
) -> Result<Moved, OutOfMemory>
    requires { visit.area < length board.now.areas }
    ensures { IfOk result (λ moved. moved ≡ acting_row board.now visit given.now) }
{
    match given {
        Given::Reply(answer) => reply_to_area(alloc, board, visit, answer),
        Given::Fault(why) => fault_to_area(alloc, board, visit, why),
        _ => {
            let stage = MenuStage::Acting;
            Ok(passed_over(alloc, State::Area { visit, stage }))
        }
    }
}
