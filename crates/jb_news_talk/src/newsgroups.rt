//! Which areas are groups.
ghost use Rattle.std.specs.Prelude.{◌≡◌, ◌<◌, ◌≤◌, ◌++◌, IfOk, IfSome, OnOk, length, position};
ghost use Rattle.jb_news.specs.Names.{group_text};
ghost use Rattle.jb_news_talk.specs.Newsgroups.{group_of, is_group, is_listed, is_numbered, is_wanted, named_line, named_lines, news_user, next_group, number_of};

use jb_base::{Bytes, Name, OutOfMemory, User};
use jb_conf::{Board, BoardArea};
use jb_news::{GroupName, LineText, append_group, append_name};
use jb_wildmat::takes;
use std::alloc::Global;

/// The name as which articles are read. No line holds a byte 0, so that no message is written to it.
const READER: &[u8] = b"\0News";

/// The user as whom articles are read.
pub(crate) fn news_user(alloc: Global, board: &Board) -> Result<User, OutOfMemory>
    ensures { IfOk result (λ user. user ≡ news_user board.now) }
{
    Ok(User {
        name: Name::copy(alloc, READER)?,
        id: 0,
        level: board.news_level,
    })
}

/// Whether an area is a group: who may read it is no sysop of it, and so sees nothing private.
fn is_group(board: &Board, area: &BoardArea) -> bool
    ensures { result ≡ is_group board.now area.now }
{
    area.rules.read <= board.news_level && board.news_level < area.rules.sysop
}

/// The number of the group at a place.
pub(crate) fn number_of(board: &Board, area: u32) -> u32
    requires { area < length board.now.areas }
    ensures { result ≡ number_of board.now area }
{
    u32::from(board.areas.as_slice()[area as usize].rules.ordinal)
}

/// The place of the group with this number, where there is one.
fn place_of(board: &Board, number: u32) -> Option<usize>
    ensures { result ≡ position (is_numbered board.now number) board.now.areas }
{
    board.areas.as_slice().iter().position(|area| u32::from(area.rules.ordinal) == number
        && is_group(board, area))
}

/// The place of the group that is named, where there is one.
pub(crate) fn group_of(board: &Board, name: GroupName) -> Option<u32>
    ensures value { result ≡ group_of board.now name }
    ensures within { IfSome result (λ area. area < length board.now.areas) }
{
    match name {
        GroupName::Number(number) => {
            let place = place_of(board, number)?;
            Some(place as u32)
        }
        GroupName::Other => None,
    }
}

/// Whether a wildmat takes the group of a number, where there is one.
fn is_wanted(alloc: Global, wildmat: &Option<LineText>, number: u32) -> Result<bool, OutOfMemory>
    ensures { IfOk result (λ wanted. wanted ≡ is_wanted wildmat.now (group_text number)) }
{
    let Some(wildmat) = wildmat else {
        return Ok(true);
    };
    let mut name = Bytes::new(alloc);
    append_group(&mut name, number)?;
    Ok(takes(wildmat.as_slice(), name.as_slice()))
}

/// Whether an area is a group that a wildmat takes.
fn is_listed(
    alloc: Global,
    board: &Board,
    wildmat: &Option<LineText>,
    area: &BoardArea,
) -> Result<bool, OutOfMemory>
    ensures { IfOk result (λ listed. listed ≡ is_listed board.now wildmat.now area.now) }
{
    if !is_group(board, area) {
        return Ok(false);
    }
    is_wanted(alloc, wildmat, u32::from(area.rules.ordinal))
}

/// The place of the first group from a place on that a wildmat takes.
pub(crate) fn next_group(
    alloc: Global,
    board: &Board,
    wildmat: &Option<LineText>,
    from: u32,
) -> Result<Option<u32>, OutOfMemory>
    requires from { from ≤ length board.now.areas }
    ensures value { IfOk result (λ next. next ≡ next_group board.now wildmat.now from) }
    ensures within { IfOk result (λ next. IfSome next (λ area. area < length board.now.areas)) }
{
    let areas = board.areas.as_slice();
    let mut place = from;
    while (place as usize) < areas.len() {
        if is_listed(alloc, board, wildmat, &areas[place as usize])? {
            return Ok(Some(place));
        }
        place += 1;
    }
    Ok(None)
}

/// Puts the line of an area with its name behind a text, where it is a group that is taken.
fn append_named_line(
    alloc: Global,
    text: &mut Bytes,
    board: &Board,
    wildmat: &Option<LineText>,
    area: &BoardArea,
) -> Result<(), OutOfMemory>
    ensures { OnOk result (text.new ≡ text.old ++ named_line board.now wildmat.now area.now) }
{
    if !is_listed(alloc, board, wildmat, area)? {
        return Ok(());
    }
    append_name(text, u32::from(area.rules.ordinal), area.name.as_slice())
}

/// Puts the lines of all groups that are taken behind a text.
pub(crate) fn append_named_lines(
    alloc: Global,
    text: &mut Bytes,
    board: &Board,
    wildmat: &Option<LineText>,
) -> Result<(), OutOfMemory>
    ensures { OnOk result (text.new ≡ text.old ++ named_lines board.now wildmat.now) }
{
    for area in board.areas.as_slice() {
        append_named_line(alloc, text, board, wildmat, area)?;
    }
    Ok(())
}
