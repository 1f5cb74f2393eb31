//! Whole lines, and the moves that say them.
ghost use Rattle.std.specs.Prelude.{◌≡◌, ◌<◌, ◌≤◌, ◌++◌, IfOk, OnOk, length, take};
ghost use Rattle.jb_text.specs.Fixed.{fixed_text};
ghost use Rattle.jb_text.specs.Faults.{fault_text};
ghost use Rattle.jb_text.specs.Letter.{line};
ghost use Rattle.jb_text.specs.Replies.{reply_text};
ghost use Rattle.jb_menu.specs.Says.{passed_over, quit, say, to_area, to_top};

use crate::board::area_name;
use crate::moves::{MenuEnd, Move, Moved};
use crate::state::{MenuStage, State, Visit};
use jb_base::{Bytes, OutOfMemory};
use jb_conf::Board;
use jb_model::Reply;
use jb_state::SharedFault;
use jb_text::{Fixed, append_line_end, fault, fixed, prompt, reply};
use std::alloc::Global;

/// So many bytes, or all where there are fewer.
pub fn first_bytes(bytes: &[u8], most: usize) -> &[u8]
    ensures first { result.now ≡ take most bytes.now }
    ensures most { length result.now ≤ most }
{
    &bytes[..bytes.len().min(most)]
}

/// A line, with its end.
pub fn whole(bytes: Bytes) -> Result<Bytes, OutOfMemory>
    ensures { IfOk result (λ text. text ≡ line bytes) }
{
    let mut text = bytes;
    append_line_end(&mut text)?;
    Ok(text)
}

/// Puts a line behind these.
pub fn append_line(lines: Bytes, bytes: &[u8]) -> Result<Bytes, OutOfMemory>
    ensures { IfOk result (λ text. text ≡ lines ++ line bytes.now) }
{
    let mut text = lines;
    text.append(bytes)?;
    append_line_end(&mut text)?;
    Ok(text)
}

/// The line of a fixed text.
pub fn fixed_line(alloc: Global, text: Fixed) -> Result<Bytes, OutOfMemory>
    ensures { IfOk result (λ bytes. bytes ≡ line (fixed_text text)) }
{
    whole(fixed(alloc, text)?)
}

/// The line of a reply.
pub fn reply_line(alloc: Global, answer: &Reply) -> Result<Bytes, OutOfMemory>
    ensures { IfOk result (λ bytes. bytes ≡ line (reply_text answer.now)) }
{
    whole(reply(alloc, answer)?)
}

/// The line of a fault.
pub fn fault_line(alloc: Global, why: &SharedFault) -> Result<Bytes, OutOfMemory>
    ensures { IfOk result (λ bytes. bytes ≡ line (fault_text why.now)) }
{
    whole(fault(alloc, why)?)
}

/// Says this text, and waits in this state for a line that is seen.
pub fn say(text: Bytes, state: State) -> Moved
    ensures { result ≡ say text state }
{
    Moved {
        step: Move::Say { text, mask: false },
        state,
    }
}

/// Says nothing, and stays in this state: what was given is not what was asked for.
pub fn passed_over(alloc: Global, state: State) -> Moved
    ensures { result ≡ passed_over state }
{
    say(Bytes::new(alloc), state)
}

/// Says these lines, and the prompt outside of the areas.
pub fn to_top(alloc: Global, user: u32, lines: Bytes) -> Result<Moved, OutOfMemory>
    ensures { IfOk result (λ moved. moved ≡ to_top user lines) }
{
    let mut text = lines;
    text.append(fixed(alloc, Fixed::TopPrompt)?.as_slice())?;
    Ok(say(text, State::Top { user }))
}

/// Says these lines, and the prompt of the area.
pub fn to_area(
    alloc: Global,
    board: &Board,
    visit: Visit,
    lines: Bytes,
) -> Result<Moved, OutOfMemory>
    requires { visit.area < length board.now.areas }
    ensures { IfOk result (λ moved. moved ≡ to_area board.now visit lines) }
{
    let mut text = lines;
    text.append(prompt(alloc, area_name(board, visit.area))?.as_slice())?;
    let stage = MenuStage::Prompt;
    Ok(say(text, State::Area { visit, stage }))
}

/// Says a fixed line, and the prompt outside of the areas.
pub fn fixed_to_top(alloc: Global, user: u32, text: Fixed) -> Result<Moved, OutOfMemory>
    ensures { IfOk result (λ moved. moved ≡ to_top user (line (fixed_text text))) }
{
    to_top(alloc, user, fixed_line(alloc, text)?)
}

/// Says a fixed line, and the prompt of the area.
pub fn fixed_to_area(
    alloc: Global,
    board: &Board,
    visit: Visit,
    text: Fixed,
) -> Result<Moved, OutOfMemory>
    requires { visit.area < length board.now.areas }
    ensures { IfOk result (λ moved. moved ≡ to_area board.now visit (line (fixed_text text))) }
{
    to_area(alloc, board, visit, fixed_line(alloc, text)?)
}

/// Says a fault, and the prompt of the area.
pub fn fault_to_area(
    alloc: Global,
    board: &Board,
    visit: Visit,
    why: &SharedFault,
) -> Result<Moved, OutOfMemory>
    requires { visit.area < length board.now.areas }
    ensures { IfOk result (λ moved. moved ≡ to_area board.now visit (line (fault_text why.now))) }
{
    to_area(alloc, board, visit, fault_line(alloc, why)?)
}

/// Says the line of a reply, and the prompt of the area.
pub fn reply_to_area(
    alloc: Global,
    board: &Board,
    visit: Visit,
    answer: &Reply,
) -> Result<Moved, OutOfMemory>
    requires { visit.area < length board.now.areas }
    ensures { IfOk result (λ moved. moved ≡ to_area board.now visit (line (reply_text answer.now))) }
{
    to_area(alloc, board, visit, reply_line(alloc, answer)?)
}

/// The user leaves.
pub fn quit(alloc: Global) -> Result<Moved, OutOfMemory>
    ensures { IfOk result (λ moved. moved ≡ quit) }
{
    let text = fixed_line(alloc, Fixed::Goodbye)?;
    let end = MenuEnd::Quit;
    Ok(Moved {
        step: Move::End { text, end },
        state: State::Ended,
    })
}
