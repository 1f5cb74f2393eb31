//! What the menus take from the board.
ghost use Rattle.std.specs.Prelude.{◌≡◌, ◌<◌, ◌≤◌, IfOk, length, position};
ghost use Rattle.jb_menu.specs.Boards.{area_name, area_named, counted_text, is_named_for, level_of, may_read, next_area, user_name};

use jb_base::{Bytes, OutOfMemory};
use jb_conf::{Board, BoardArea};
use jb_text::area_line;
use std::alloc::Global;

/// The level of a user.
fn level_of(board: &Board, user: u32) -> u8
    requires { user < length board.now.users }
    ensures { result ≡ level_of board.now user }
{
    board.users.as_slice()[user as usize].user.level
}

/// The name of a user, as the settings have it.
pub fn user_name(board: &Board, user: u32) -> &[u8]
    requires { user < length board.now.users }
    ensures { result.now ≡ user_name board.now user }
{
    board.users.as_slice()[user as usize].user.name.as_slice()
}

/// The name of an area.
pub fn area_name(board: &Board, area: u32) -> &[u8]
    requires { area < length board.now.areas }
    ensures { result.now ≡ area_name board.now area }
{
    board.areas.as_slice()[area as usize].name.as_slice()
}

/// The line of an area in the list of areas, without its end.
pub fn counted_text(
    alloc: Global,
    board: &Board,
    area: u32,
    unread: u32,
) -> Result<Bytes, OutOfMemory>
    requires { area < length board.now.areas }
    ensures { IfOk result (λ text. text ≡ counted_text board.now area unread) }
{
    let one = &board.areas.as_slice()[area as usize];
    area_line(alloc, one.rules.ordinal, one.name.as_slice(), unread)
}

/// The place of the first of these areas that a level may read.
fn place_of_readable(areas: &[BoardArea], level: u8) -> Option<usize>
    ensures { result ≡ position (may_read level) areas.now }
{
    areas.iter().position(|area| area.rules.read <= level)
}

/// The first area from this one on that the user may read.
pub fn next_area(board: &Board, user: u32, from: u32) -> Option<u32>
    requires user { user < length board.now.users }
    requires from { from ≤ length board.now.areas }
    ensures { result ≡ next_area board.now user from }
{
    let level = level_of(board, user);
    let (_, rest) = board.areas.as_slice().split_at(from as usize);
    match place_of_readable(rest, level) {
        Some(place) => Some(from + place as u32),
        None => None,
    }
}

/// The place of the one of these areas with this number, where a level may read it.
fn place_of_named(areas: &[BoardArea], level: u8, number: u32) -> Option<usize>
    ensures { result ≡ position (is_named_for level number) areas.now }
{
    areas.iter().position(|area| u32::from(area.rules.ordinal) == number
        && area.rules.read <= level)
}

/// The area with this number, where the user may read it.
pub fn area_named(board: &Board, user: u32, number: u32) -> Option<u32>
    requires user { user < length board.now.users }
    ensures { result ≡ area_named board.now user number }
{
    let place = place_of_named(board.areas.as_slice(), level_of(board, user), number)?;
    Some(place as u32)
}
