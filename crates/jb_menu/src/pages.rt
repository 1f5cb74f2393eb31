//! Pages between nodes, which are sent and taken outside of the areas and at the prompt of one.
ghost use Rattle.std.specs.Prelude.{◌≡◌, ◌++◌, IfOk, take};
ghost use Rattle.jb_state.specs.Short.{kept_of, short_of};
ghost use Rattle.jb_text.specs.Letter.{line};
ghost use Rattle.jb_text.specs.Lines.{page_line_text};
ghost use Rattle.jb_menu.specs.Pages.{HasAreaAt, pages_lines, paging_turn, sending_row, sent_text, take_row, taken_row, taking_begins, taking_row, to_prompt, write_row, writing_row};

use crate::Given;
use crate::lines::{
    append_line, first_bytes, fixed_line, passed_over, say, to_area, to_top, whole,
};
use crate::moves::{Move, Moved};
use crate::state::{At, PageStage, State};
use jb_base::{Bytes, OutOfMemory};
use jb_conf::Board;
use jb_page::{Page, PageError};
use jb_state::Short;
use jb_text::{Fixed, fixed, node_full, page_line};
use std::alloc::Global;

/// Bytes of a page.
const MOST_PAGE_BYTES: usize = 72;
/// Pages that are taken by one command.
const MOST_TAKEN: u32 = 64;

/// Says these lines, and the prompt where the user is.
fn to_prompt(alloc: Global, board: &Board, at: At, lines: Bytes) -> Result<Moved, OutOfMemory>
    requires { HasAreaAt board.now at }
    ensures { IfOk result (λ moved. moved ≡ to_prompt board.now at lines) }
{
    match at {
        At::Top { user } => to_top(alloc, user, lines),
        At::Area { visit } => to_area(alloc, board, visit, lines),
    }
}

/// Waits for the text of a page to this node, where the board has it.
pub fn write_page(alloc: Global, board: &Board, at: At, to: u32) -> Result<Moved, OutOfMemory>
    requires { HasAreaAt board.now at }
    ensures { IfOk result (λ moved. moved ≡ write_row board.now at to) }
{
    if 0 < to && to <= board.nodes {
        let text = fixed(alloc, Fixed::AskPage)?;
        let stage = PageStage::Writing { to };
        Ok(say(text, State::Paging { at, stage }))
    } else {
        to_prompt(alloc, board, at, fixed_line(alloc, Fixed::NoSuchNode)?)
    }
}

/// The text of a page, of which so many bytes of this line are kept as it has room for.
fn text_of(typed: &[u8]) -> Short<72>
    ensures { result ≡ short_of 72 (take 72 typed.now) }
{
    Short::of(first_bytes(typed, MOST_PAGE_BYTES))
}

/// Waits for the text of a page to this node.
fn writing(alloc: Global, at: At, to: u32, given: &Given) -> Moved
    ensures { result ≡ writing_row at to given.now }
{
    match given {
        Given::Line(line) => {
            let text = text_of(line.as_slice());
            let stage = PageStage::Sending;
            Moved {
                step: Move::Send { to, text },
                state: State::Paging { at, stage },
            }
        }
        _ => {
            let stage = PageStage::Writing { to };
            passed_over(alloc, State::Paging { at, stage })
        }
    }
}

/// What is said of a send.
fn sent_line(alloc: Global, outcome: &Result<(), PageError>) -> Result<Bytes, OutOfMemory>
    ensures { IfOk result (λ text. text ≡ line (sent_text outcome.now)) }
{
    match outcome {
        Ok(()) => fixed_line(alloc, Fixed::PageSent),
        Err(PageError::Full { to }) => whole(node_full(alloc, *to)?),
        Err(PageError::Spent { .. }) => fixed_line(alloc, Fixed::PagesSpent),
    }
}

/// Waits for what comes of a send.
fn sending(alloc: Global, board: &Board, at: At, given: &Given) -> Result<Moved, OutOfMemory>
    requires { HasAreaAt board.now at }
    ensures { IfOk result (λ moved. moved ≡ sending_row board.now at given.now) }
{
    match given {
        Given::Sent(outcome) => to_prompt(alloc, board, at, sent_line(alloc, outcome)?),
        _ => {
            let stage = PageStage::Sending;
            Ok(passed_over(alloc, State::Paging { at, stage }))
        }
    }
}

/// Takes the next page, behind these lines, and so many more at most.
fn take_page(at: At, lines: Bytes, left: u32) -> Moved
    ensures { result ≡ take_row at lines left }
{
    let stage = PageStage::Taking { lines, left };
    Moved {
        step: Move::Take,
        state: State::Paging { at, stage },
    }
}

/// Takes the pages that wait for the node.
pub fn take_pages(alloc: Global, at: At) -> Moved
    ensures { result ≡ taking_begins at }
{
    take_page(at, Bytes::new(alloc), MOST_TAKEN - 1)
}

/// Puts the line of a page behind these.
fn append_page(alloc: Global, lines: Bytes, taken: &Page) -> Result<Bytes, OutOfMemory>
    ensures { IfOk result (λ text. text ≡ lines ++ line (page_line_text taken.now.from (kept_of 72 taken.now.text))) }
{
    let one = page_line(alloc, taken.from, taken.text.as_slice())?;
    append_line(lines, one.as_slice())
}

/// Takes the next page, where so many more than none may be taken, and else says these lines.
fn taken(
    alloc: Global,
    board: &Board,
    at: At,
    lines: Bytes,
    left: u32,
) -> Result<Moved, OutOfMemory>
    requires { HasAreaAt board.now at }
    ensures { IfOk result (λ moved. moved ≡ taken_row board.now at lines left) }
{
    if left == 0 {
        to_prompt(alloc, board, at, lines)
    } else {
        Ok(take_page(at, lines, left - 1))
    }
}

/// The lines of the pages that were taken; where there is none, that is said.
fn pages_lines(alloc: Global, lines: Bytes) -> Result<Bytes, OutOfMemory>
    ensures { IfOk result (λ text. text ≡ pages_lines lines) }
{
    if lines.is_empty() {
        fixed_line(alloc, Fixed::NoPages)
    } else {
        Ok(lines)
    }
}

/// Waits for the next page, behind these lines.
fn taking(
    alloc: Global,
    board: &Board,
    at: At,
    lines: Bytes,
    left: u32,
    given: &Given,
) -> Result<Moved, OutOfMemory>
    requires { HasAreaAt board.now at }
    ensures { IfOk result (λ moved. moved ≡ taking_row board.now at lines left given.now) }
{
    match given {
        Given::Page(Some(one)) => {
            let lines = append_page(alloc, lines, one)?;
            taken(alloc, board, at, lines, left)
        }
        Given::Page(None) => to_prompt(alloc, board, at, pages_lines(alloc, lines)?),
        _ => {
            let stage = PageStage::Taking { lines, left };
            Ok(passed_over(alloc, State::Paging { at, stage }))
        }
    }
}

/// What is done where pages are sent or taken, and the state after it.
pub fn paging(
    alloc: Global,
    board: &Board,
    at: At,
    stage: PageStage,
    given: &Given,
) -> Result<Moved, OutOfMemory>
    requires { HasAreaAt board.now at }
    ensures { IfOk result (λ moved. moved ≡ paging_turn board.now at stage given.now) }
{
    match stage {
        PageStage::Writing { to } => Ok(writing(alloc, at, to, given)),
        PageStage::Sending => sending(alloc, board, at, given),
        PageStage::Taking { lines, left } => taking(alloc, board, at, lines, left, given),
    }
}
