//! The log-in.
ghost use Rattle.std.specs.Prelude.{◌≡◌, ◌<◌, IfOk, IfSome, length};
ghost use Rattle.jb_menu.specs.LogIn.{login_row, name_row, password_row, refused_row};

use crate::Given;
use crate::board::user_name;
use crate::lines::{append_line, fixed_line, passed_over, say, to_top, whole};
use crate::moves::{MenuEnd, Move, Moved};
use crate::state::State;
use jb_base::{Name, OutOfMemory};
use jb_conf::{Board, check_login};
use jb_text::{Fixed, fixed, welcome};
use std::alloc::Global;

/// Refused log-ins after which there is another try.
const MOST_TRIES_AGAIN: u8 = 2;

/// Waits for a name.
pub fn name(alloc: Global, refused: u8, given: &Given) -> Result<Moved, OutOfMemory>
    ensures { IfOk result (λ moved. moved ≡ name_row refused given.now) }
{
    match given {
        Given::Line(line) => {
            let name = Name::copy(alloc, line.as_slice())?;
            let text = fixed(alloc, Fixed::AskPassword)?;
            Ok(Moved {
                step: Move::Say { text, mask: true },
                state: State::Password { refused, name },
            })
        }
        _ => Ok(passed_over(alloc, State::Name { refused })),
    }
}

/// The third refused log-in.
fn ended(alloc: Global) -> Result<Moved, OutOfMemory>
    ensures { IfOk result (λ moved. moved ≡ refused_row 2) }
{
    let goodbye = fixed(alloc, Fixed::Goodbye)?;
    let text = append_line(
        fixed_line(alloc, Fixed::LoginIncorrect)?,
        goodbye.as_slice(),
    )?;
    let end = MenuEnd::LoginRefused;
    Ok(Moved {
        step: Move::End { text, end },
        state: State::Ended,
    })
}

/// A refused log-in, behind so many others.
fn refused_again(alloc: Global, refused: u8) -> Result<Moved, OutOfMemory>
    ensures { IfOk result (λ moved. moved ≡ refused_row refused) }
{
    if refused < MOST_TRIES_AGAIN {
        let mut text = fixed_line(alloc, Fixed::LoginIncorrect)?;
        text.append(fixed(alloc, Fixed::AskName)?.as_slice())?;
        let refused = refused + 1;
        Ok(say(text, State::Name { refused }))
    } else {
        ended(alloc)
    }
}

/// The user who logs in, if one does.
fn logged_in(
    alloc: Global,
    board: &Board,
    refused: u8,
    user: Option<u32>,
) -> Result<Moved, OutOfMemory>
    requires { IfSome user (λ place. place < length board.now.users) }
    ensures { IfOk result (λ moved. moved ≡ login_row board.now refused user) }
{
    match user {
        Some(user) => to_top(alloc, user, whole(welcome(alloc, user_name(board, user))?)?),
        None => refused_again(alloc, refused),
    }
}

/// Waits for the password of a name.
pub fn password(
    alloc: Global,
    board: &Board,
    refused: u8,
    name: Name,
    given: &Given,
) -> Result<Moved, OutOfMemory>
    ensures { IfOk result (λ moved. moved ≡ password_row board.now refused name given.now) }
{
    match given {
        Given::Line(line) => {
            let user = check_login(board, name.as_slice(), line.as_slice());
            logged_in(alloc, board, refused, user)
        }
        _ => Ok(passed_over(alloc, State::Password { refused, name })),
    }
}
