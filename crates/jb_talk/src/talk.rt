//! A talk, from its greeting to its end.
ghost use Rattle.std.specs.Prelude.{◌≡◌, ◌≤◌, ◌++◌, IfOk};
ghost use Rattle.std.specs.List.{flat_map};
ghost use Rattle.jb_limits.specs.declared.limits.TheConstants.{MOST_SESSION_BYTES};
ghost use Rattle.jb_option.specs.Table.{greeting_bytes};
ghost use Rattle.jb_telnet.specs.Units.{doubled};
ghost use Rattle.jb_talk.specs.Conversations.{Talks};
ghost use Rattle.jb_talk.specs.Talking.{Hands, HasTalked, posture_of, asker_of};

use crate::standing::Standing;
use jb_base::{MOST_SESSION_BYTES, OutOfMemory, User};
use jb_conf::Board;
use jb_line::LineEditor;
use jb_menu::{Given, Menu, MenuEnd};
use jb_option::Options;
use jb_speech::{AreaRequest, Heard, MOST_PIECE_BYTES, Request, Speaker, TalkEnd};
use jb_telnet::{Decoder, bytes_are_cut_one_way, encode};
use std::alloc::Global;
use std::marker::Model;

/// A talk with one caller. Contracts see the unit that its decoder is in, how many bytes it has taken, where it is, and what
/// is to be sent.
pub struct Talk {
    pub(crate) decoder: Decoder,
    pub(crate) taken: u64,
    pub(crate) options: Options,
    pub(crate) editor: LineEditor,
    pub(crate) menu: Menu,
    pub(crate) standing: Standing,
    pub(crate) owed: Vec<u8>,
}

// Whoever lets go of one does so in one call.
impl Drop for Talk {
    fn drop(self) {
        let Talk {
            decoder: _decoder,
            taken: _taken,
            options: _options,
            editor: _editor,
            menu: _menu,
            standing: _standing,
            owed: _owed,
        } = self;
    }
}

impl Model for Talk {
    ghost use Rattle.std.specs.Prelude.{◌≤◌};
    ghost use Rattle.jb_limits.specs.declared.limits.TheConstants.{MOST_SESSION_BYTES};
    ghost use Rattle.jb_talk.specs.Talking.{Talking};

    ghost Value = { Talking };

    ghost view = { λ t. record {
      kept = t.decoder;
      taken = t.taken;
      place = record { options = t.options; typing = t.editor; menu = t.menu; standing = t.standing };
      owed = t.owed.items;
    } };

    ghost invariant = { λ t. t.taken ≤ MOST_SESSION_BYTES };
}

impl Speaker for Talk {
    ghost posture = { posture_of };

    ghost talks = { Talks };

    ghost has_talked = { HasTalked };

    ghost hands_out = { Hands };

    ghost user_of = { asker_of };

    ghost reach = { λ board. board.nodes };

    // It owes the offers of the board, its name and the first question.
    fn start(alloc: Global, board: &Board) -> Result<Self, OutOfMemory> {
        let (menu, text) = Menu::start(alloc, board)?;
        let options = Options::new();
        let owed = first_owed(alloc, &options, text.as_slice())?;
        Ok(Talk {
            decoder: Decoder::new(),
            taken: 0,
            options,
            editor: LineEditor::new(),
            menu,
            standing: Standing::On,
            owed,
        })
    }

    fn hear(&mut self, alloc: Global, board: &Board, piece: &[u8]) -> Result<Heard, OutOfMemory> {
        let mut taken = 0;
        while taken < piece.len() {
            match self.take(alloc, board, piece[taken]) {
                Ok(None) => taken += 1,
                Ok(request) => {
                    return Ok(Heard {
                        taken: taken + 1,
                        request,
                    });
                }
                Err(want) => {
                    self.fail();
                    return Err(want);
                }
            }
        }
        Ok(Heard {
            taken,
            request: None,
        })
    }

    // What was not asked for leads to nothing.
    fn answer(
        &mut self,
        alloc: Global,
        board: &Board,
        given: &Given,
    ) -> Result<Option<Request>, OutOfMemory> {
        match self.give(alloc, board, given) {
            Ok(request) => Ok(request),
            Err(want) => {
                self.fail();
                Err(want)
            }
        }
    }

    fn user_of<'a>(&'a self, board: &'a Board, request: &AreaRequest) -> &'a User {
        &board.users.as_slice()[request.user as usize].user
    }

    fn owed(&self) -> &[u8] {
        self.owed.as_slice()
    }

    fn was_sent(&mut self) {
        self.owed.clear();
    }

    fn wants(&self) -> usize {
        if self.standing.is_on() && self.owed.is_empty() {
            MOST_PIECE_BYTES.min((MOST_SESSION_BYTES - self.taken) as usize)
        } else {
            0
        }
    }

    fn end(&self) -> TalkEnd {
        match self.standing {
            Standing::On if self.taken == MOST_SESSION_BYTES => TalkEnd::Spent,
            Standing::On => TalkEnd::Hangup,
            Standing::Waits => TalkEnd::Unanswered,
            Standing::Over(MenuEnd::Quit) => TalkEnd::Quit,
            Standing::Over(MenuEnd::LoginRefused) => TalkEnd::LoginRefused,
            Standing::Failed => TalkEnd::OutOfMemory,
        }
    }

    fn name_tried(&self) -> Option<&[u8]> {
        self.menu.name_tried()
    }

    fn is_logged_in(&self) -> bool {
        self.menu.user().is_some()
    }

    fn laws() {
        bytes_are_cut_one_way();
    }
}

/// The offers of the board, and a text with its byte 255 doubled.
fn first_owed(alloc: Global, options: &Options, text: &[u8]) -> Result<Vec<u8>, OutOfMemory>
    ensures { IfOk result (λ owed. owed.items ≡ greeting_bytes ++ flat_map doubled text.now) }
{
    let mut owed = Vec::from_slice(alloc, &options.greeting())?;
    owed.extend_from_slice(encode(alloc, text)?.as_slice())?;
    Ok(owed)
}
