//! The menus of one session.
ghost use Rattle.std.specs.Prelude.{◌≡◌, ◌<◌, IfOk, OnErr, length};
ghost use Rattle.jb_text.specs.Lines.{start_text};
ghost use Rattle.jb_menu.specs.Awaits.{AsksHere, Awaits, IsFor, Reaches, Wanted, awaited_in, wanted_by};
ghost use Rattle.jb_menu.specs.Menu.{MenuStep, menu_turn, stage_turn, user_in};

use crate::answers::{acting, listing_messages, marking, reading, seeking};
use crate::area::prompted;
use crate::editing::{edit_subject, peeking};
use crate::lines::passed_over;
use crate::login::{name, password};
use crate::moves::Moved;
use crate::pages::paging;
use crate::state::{MenuStage, State, Visit};
use crate::top::{counting, entering, top};
use crate::writing::{private, subject, text, to};
use crate::{Given, Move};
use jb_base::{Bytes, OutOfMemory};
use jb_conf::Board;
use jb_text::start;
use std::alloc::Global;
use std::marker::Model;
use std::mem;

/// The menus of one session, and where they are. Contracts see the state.
#[derive(Drop)]
pub struct Menu {
    state: State,
}

impl Model for Menu {
    ghost use Rattle.jb_menu.specs.declared.state.State.{State};

    ghost Value = { State };

    ghost view = { λ m. m.state };
}

impl Menu {
    /// Before the log-in, and what is said first.
    #[tactic(auto, unfolding(crate::specs::Awaits::IsFor, crate::specs::Awaits::awaited_in))]
    pub fn start(alloc: Global, board: &Board) -> Result<(Menu, Bytes), OutOfMemory>
        ensures state { IfOk result (λ begun. begun.0 ≡ State.Name 0) }
        ensures text { IfOk result (λ begun. begun.1 ≡ start_text board.now.name) }
        // A session begins with a state of the board that waits for a line.
        ensures of { IfOk result (λ begun. IsFor board.now begun.0) }
        ensures awaits { IfOk result (λ begun. awaited_in begun.0 ≡ Wanted.a_line) }
    {
        let text = start(alloc, board.name.as_slice())?;
        let state = State::Name { refused: 0 };
        Ok((Menu { state }, text))
    }

    /// The place of the user on the board, counted from 0, from the log-in to the end.
    pub fn user(&self) -> Option<u32>
        ensures { result ≡ user_in self.now }
    {
        match &self.state {
            State::Top { user } | State::Counting { user, .. } | State::Entering { user, .. } => {
                Some(*user)
            }
            State::Area { visit, .. } => Some(visit.user),
            State::Paging { at, .. } => Some(at.user()),
            State::Name { .. } | State::Password { .. } | State::Ended => None,
        }
    }

    /// The name whose password is awaited, as it was typed.
    pub fn name_tried(&self) -> Option<&[u8]> {
        match &self.state {
            State::Password { name, .. } => Some(name.as_slice()),
            _ => None,
        }
    }

    /// Takes what the last move asked for, and gives the next one. Something else is passed over: nothing is said, and the
    /// state stays. For want of memory the menu is at its end, where it passes over everything.
    #[tactic(auto, unfolding(crate::specs::Awaits::IsFor))]
    pub fn step(&mut self, alloc: Global, board: &Board, given: &Given) -> Result<Move, OutOfMemory>
        requires of { IsFor board.now self.old }
        ensures step { IfOk result (λ step. MenuStep board.now self.old given.now step self.new) }
        ensures err { OnErr result (self.new ≡ State.Ended) }

        // The state stays one of the board, and a menu that is given what it waits for waits then for what it asks for.
        ensures of { IsFor board.now self.new }
        ensures awaits { Awaits self.old given.now
            → IfOk result (λ step. awaited_in self.new ≡ wanted_by step) }
        // No area is asked but the one where the menu is.
        ensures here { IfOk result (λ step. AsksHere step self.new) }
        // A page is only sent to a node of the board.
        ensures reaches { IfOk result (λ step. Reaches board.now step) }
    {
        let state = mem::replace(&mut self.state, State::Ended);
        let moved = turn(alloc, board, state, given)?;
        self.state = moved.state;
        Ok(moved.step)
    }
}

/// What is done in a state, and the state after it.
#[tactic(auto, unfolding(crate::specs::Menu::menu_turn, crate::specs::Awaits::IsFor))]
fn turn(alloc: Global, board: &Board, state: State, given: &Given) -> Result<Moved, OutOfMemory>
    requires of { IsFor board.now state }
    ensures { IfOk result (λ moved. moved ≡ menu_turn board.now state given.now) }
{
    match state {
        State::Name { refused } => name(alloc, refused, given),
        State::Password {
            refused,
            name: typed,
        } => password(alloc, board, refused, typed, given),
        State::Top { user } => top(alloc, board, user, given),
        State::Counting { user, area, lines } => {
            counting(alloc, board, user, area, lines, given)
        }
        State::Entering { user, area } => entering(alloc, board, user, area, given),
        State::Area { visit, stage } => stage_turn(alloc, board, visit, stage, given),
        State::Paging { at, stage } => paging(alloc, board, at, stage, given),
        State::Ended => Ok(passed_over(alloc, State::Ended)),
    }
}

/// What is done in an area, and the state after it.
#[tactic(auto, unfolding(crate::specs::Menu::stage_turn))]
fn stage_turn(
    alloc: Global,
    board: &Board,
    visit: Visit,
    stage: MenuStage,
    given: &Given,
) -> Result<Moved, OutOfMemory>
    requires area { visit.area < length board.now.areas }
    ensures { IfOk result (λ moved. moved ≡ stage_turn board.now visit stage given.now) }
{
    match stage {
        MenuStage::Prompt => prompted(alloc, board, visit, given),
        MenuStage::Listing => listing_messages(alloc, board, visit, given),
        MenuStage::Seeking => seeking(alloc, board, visit, given),
        MenuStage::Reading { marks } => reading(alloc, board, visit, marks, given),
        MenuStage::Marking { letter } => marking(alloc, board, visit, letter, given),
        MenuStage::Peeking => peeking(alloc, board, visit, given),
        MenuStage::Acting => acting(alloc, board, visit, given),
        MenuStage::To => to(alloc, board, visit, given),
        MenuStage::Subject { to: receiver } => subject(alloc, visit, receiver, given),
        MenuStage::Private {
            to: receiver,
            subject: about,
        } => private(alloc, visit, receiver, about, given),
        MenuStage::EditSubject {
            number,
            subject: about,
        } => edit_subject(alloc, visit, number, about, given),
        MenuStage::Text {
            draft,
            text: so_far,
        } => { text(alloc, board, visit, draft, so_far, given) }
    }
}
