//! A conversation with a news reader, from its greeting to its end.
ghost use Rattle.std.specs.Prelude.{◌≡◌, ◌+◌, ◌<◌, ◌++◌, ◌∷◌, [], ℕ, List, IfOk, OnOk, true, false};
ghost use Rattle.std.specs.Option.{option_to_list};
ghost use Rattle.jb_limits.specs.declared.limits.TheConstants.{MOST_SESSION_BYTES};
ghost use Rattle.jb_menu.specs.declared.given.Given.{Given};
ghost use Rattle.jb_speech.specs.Conversations.{owing};
ghost use Rattle.jb_speech.specs.Posture.{HasFailed};
ghost use Rattle.jb_speech.specs.declared.request.Request.{Request};
ghost use Rattle.jb_news_talk.specs.Conversations.{NewsTalks, given_turn, is_waiting, line_turn, reader_of};
ghost use Rattle.jb_news_talk.specs.Newsgroups.{news_user};
ghost use Rattle.jb_news_talk.specs.Reading.{IsPlaceOn, NewsHands, NewsHasTalked, posture_of};

use crate::answering::answered;
use crate::commands::command;
use crate::newsgroups::news_user;
use crate::place::{Chosen, NewsPlace, NewsStage};
use crate::turn::NewsTurn;
use jb_base::{MOST_SESSION_BYTES, OutOfMemory, User};
use jb_conf::Board;
use jb_menu::Given;
use jb_news::{LineCutter, NewsLine, command_of, greeting, lines_are_cut_one_way};
use jb_speech::{AreaRequest, Heard, MOST_PIECE_BYTES, Request, Speaker, TalkEnd};
use std::alloc::Global;
use std::marker::Model;
use std::mem;

/// A conversation with one reader. Contracts see what is kept of a line, how many bytes it has taken, where it is, what is to be sent, and as
/// whom articles are read.
pub struct NewsTalk {
    cutter: LineCutter,
    taken: u64,
    place: NewsPlace,
    owed: Vec<u8>,
    user: User,
}

// Whoever lets go of one does so in one call.
impl Drop for NewsTalk {
    fn drop(self) {
        let NewsTalk {
            cutter: _cutter,
            taken: _taken,
            place: _place,
            owed: _owed,
            user: _user,
        } = self;
    }
}

impl Model for NewsTalk {
    ghost use Rattle.std.specs.Prelude.{◌≤◌};
    ghost use Rattle.jb_limits.specs.declared.limits.TheConstants.{MOST_SESSION_BYTES};
    ghost use Rattle.jb_news_talk.specs.Reading.{NewsTalking};

    ghost Value = { NewsTalking };

    ghost view = { λ t. record {
      held = record { kept = t.cutter; taken = t.taken; place = t.place; owed = t.owed.items };
      user = t.user;
    } };

    ghost invariant = { λ t. t.taken ≤ MOST_SESSION_BYTES };
}

impl NewsTalk {
    /// Nothing more is sent or heard.
    fn fail(&mut self)
        ensures { HasFailed (posture_of self.new) }
    {
        self.place.stage = NewsStage::Broken;
        self.owed.clear();
    }

    /// Owes what a turn says, and stands where it leads.
    fn go(&mut self, turn: NewsTurn) -> Result<Option<Request>, OutOfMemory>
        ensures turn { OnOk result (self.new ≡ record self.old { held = owing self.old.held turn }) }
        ensures request { IfOk result (λ request. request ≡ turn.request) }
    {
        let NewsTurn {
            place,
            text,
            request,
        } = turn;
        self.owed.extend_from_slice(text.as_slice())?;
        self.place = place;
        Ok(request)
    }

    /// Does what a line asks for.
    fn turn(
        &mut self,
        alloc: Global,
        board: &Board,
        line: &NewsLine,
    ) -> Result<Option<Request>, OutOfMemory>
        requires user { self.old.user ≡ news_user board.now }
        requires place { IsPlaceOn board.now self.old.held.place }
        ensures turn { OnOk result (self.new
            ≡ record self.old { held = owing self.old.held (line_turn board.now self.old.held.place line.now) }) }
        ensures request { IfOk result (λ request.
            request ≡ (line_turn board.now self.old.held.place line.now).request) }
        ensures hands { IfOk result (λ request. NewsHands board.now self.new request) }
    {
        let turn = command(alloc, board, self.place.chosen, command_of(line))?;
        self.go(turn)
    }

    /// Takes an answer.
    fn give(
        &mut self,
        alloc: Global,
        board: &Board,
        given: &Given,
    ) -> Result<Option<Request>, OutOfMemory>
        requires user { self.old.user ≡ news_user board.now }
        requires place { IsPlaceOn board.now self.old.held.place }
        requires waits { is_waiting self.old.held.place.stage ≡ true }
        ensures turn { OnOk result (self.new
            ≡ record self.old { held = owing self.old.held (given_turn board.now self.old.held.place given.now) }) }
        ensures request { IfOk result (λ request.
            request ≡ (given_turn board.now self.old.held.place given.now).request) }
        ensures hands { IfOk result (λ request. NewsHands board.now self.new request) }
    {
        let stage = mem::replace(&mut self.place.stage, NewsStage::Idle);
        let turn = answered(alloc, board, self.place.chosen, stage, given)?;
        self.go(turn)
    }

    /// Takes a byte. Behind the end it leads to nothing.
    fn take(
        &mut self,
        alloc: Global,
        board: &Board,
        byte: u8,
    ) -> Result<Option<Request>, OutOfMemory>
        requires user { self.old.user ≡ news_user board.now }
        requires place { IsPlaceOn board.now self.old.held.place }
        requires idle { is_waiting self.old.held.place.stage ≡ false }
        requires room { self.old.held.taken < MOST_SESSION_BYTES }
        ensures fits { IfOk result (λ request.
            (bytes sent : List ℕ) (answers : List Given) (asked : List Request)
            → NewsHasTalked board.now self.old bytes answers sent asked
            → NewsHasTalked board.now self.new (bytes ++ byte ∷ []) answers sent
            (asked ++ option_to_list request)) }
        ensures hands { IfOk result (λ request. NewsHands board.now self.new request) }
        ensures counted { OnOk result (self.new.held.taken ≡ self.old.held.taken + 1) }
    {
        self.taken += 1;
        let Some(line) = self.cutter.push(byte) else {
            return Ok(None);
        };
        if self.place.stage.is_on() {
            self.turn(alloc, board, &line)
        } else {
            Ok(None)
        }
    }
}

impl Speaker for NewsTalk {
    ghost posture = { posture_of };

    ghost talks = { NewsTalks };

    ghost has_talked = { NewsHasTalked };

    ghost hands_out = { NewsHands };

    ghost user_of = { reader_of };

    ghost reach = { λ board. 0 };

    fn start(alloc: Global, board: &Board) -> Result<Self, OutOfMemory> {
        Ok(NewsTalk {
            cutter: LineCutter::new(),
            taken: 0,
            place: NewsPlace {
                chosen: Chosen {
                    group: None,
                    current: None,
                },
                stage: NewsStage::Idle,
            },
            owed: Vec::from_slice(alloc, greeting(alloc, board.name.as_slice())?.as_slice())?,
            user: news_user(alloc, board)?,
        })
    }

    fn hear(&mut self, alloc: Global, board: &Board, piece: &[u8]) -> Result<Heard, OutOfMemory> {
        let mut taken = 0;
        while taken < piece.len() {
            match self.take(alloc, board, piece[taken]) {
                Ok(None) => taken += 1,
                Ok(request) => {
                    return Ok(Heard {
                        taken: taken + 1,
                        request,
                    });
                }
                Err(want) => {
                    self.fail();
                    return Err(want);
                }
            }
        }
        Ok(Heard {
            taken,
            request: None,
        })
    }

    fn answer(
        &mut self,
        alloc: Global,
        board: &Board,
        given: &Given,
    ) -> Result<Option<Request>, OutOfMemory> {
        match self.give(alloc, board, given) {
            Ok(request) => Ok(request),
            Err(want) => {
                self.fail();
                Err(want)
            }
        }
    }

    fn user_of<'a>(&'a self, board: &'a Board, request: &AreaRequest) -> &'a User {
        &self.user
    }

    fn owed(&self) -> &[u8] {
        self.owed.as_slice()
    }

    fn was_sent(&mut self) {
        self.owed.clear();
    }

    fn wants(&self) -> usize {
        if self.place.stage.is_on() && self.owed.is_empty() {
            MOST_PIECE_BYTES.min((MOST_SESSION_BYTES - self.taken) as usize)
        } else {
            0
        }
    }

    fn end(&self) -> TalkEnd {
        match self.place.stage {
            NewsStage::Idle if self.taken == MOST_SESSION_BYTES => TalkEnd::Spent,
            NewsStage::Idle => TalkEnd::Hangup,
            NewsStage::Over => TalkEnd::Quit,
            NewsStage::Broken => TalkEnd::OutOfMemory,
            _ => TalkEnd::Unanswered,
        }
    }

    fn laws() {
        lines_are_cut_one_way();
    }
}
