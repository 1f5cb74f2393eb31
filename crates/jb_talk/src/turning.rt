//! The turns of a talk: what it does with an event and with an answer.
ghost use Rattle.std.specs.Prelude.{◌≡◌, ◌+◌, ◌<◌, ◌≤◌, ◌++◌, ◌∷◌, [], ℕ, List, None, false, IfOk, OnOk, IsTrue, length, take};
ghost use Rattle.std.specs.List.{flat_map};
ghost use Rattle.std.specs.Option.{option_to_list};
ghost use Rattle.jb_limits.specs.declared.limits.TheConstants.{MOST_SESSION_BYTES};
ghost use Rattle.jb_line.specs.Typing.{typing_after, line_of};
ghost use Rattle.jb_menu.specs.Awaits.{IsFor};
ghost use Rattle.jb_menu.specs.declared.given.Given.{Given};
ghost use Rattle.jb_option.specs.Table.{option_answer, sides_after};
ghost use Rattle.jb_telnet.specs.Units.{doubled};
ghost use Rattle.jb_talk.specs.Conversations.{is_waiting};
ghost use Rattle.jb_talk.specs.Keys.{yes_of};
ghost use Rattle.jb_speech.specs.Conversations.{owing};
ghost use Rattle.jb_speech.specs.Posture.{HasFailed};
ghost use Rattle.jb_talk.specs.Talking.{Hands, HasTalked, posture_of};
ghost use Rattle.jb_talk.specs.Turns.{asks_area, event_turn, given_turn, key_turn, key_echo, line_turn, move_turn, pressed_turn, requests, says};

use crate::keys::{append_echo, key_of, yes_of};
use crate::standing::Standing;
use crate::talk::Talk;
use jb_base::{Bytes, OutOfMemory};
use jb_conf::Board;
use jb_line::{Key, Line};
use jb_menu::{Given, Move};
use jb_speech::{Act, AreaRequest, Request};
use jb_telnet::{Event, encode};
use std::alloc::Global;

impl Talk {
    /// Nothing more is sent or heard.
    pub(crate) fn fail(&mut self)
        ensures { HasFailed (posture_of self.new) }
    {
        self.standing = Standing::Failed;
        self.owed.clear();
    }

    /// Owes a text, with its byte 255 doubled.
    fn say(&mut self, alloc: Global, text: &Bytes) -> Result<(), OutOfMemory>
        ensures { OnOk result (self.new ≡ owing self.old (says self.old.place (flat_map doubled text.now))) }
    {
        self.owed
            .extend_from_slice(encode(alloc, text.as_slice())?.as_slice())?;
        Ok(())
    }

    /// Waits for the answer to this request.
    fn ask(&mut self, request: Request) -> Request
        ensures turn { self.new ≡ owing self.old (requests self.old.place request) }
        ensures request { result ≡ request }
    {
        self.standing = Standing::Waits;
        request
    }

    /// Asks an area for the user who is logged in.
    fn ask_area(&mut self, area: u32, act: Act) -> Request
        ensures turn { self.new ≡ owing self.old (asks_area self.old.place area act) }
        ensures request { (asks_area self.old.place area act).request ≡ Some result }
    {
        let user = self.menu.user().unwrap_or(0);
        self.ask(Request::Area(AreaRequest { user, area, act }))
    }

    /// Does what the menus say.
    fn move_on(&mut self, alloc: Global, step: Move) -> Result<Option<Request>, OutOfMemory>
        ensures turn { IfOk result (λ request. self.new ≡ owing self.old (move_turn self.old.place step)) }
        ensures request { IfOk result (λ request. request ≡ (move_turn self.old.place step).request) }
    {
        match step {
            Move::Say { text, mask } => {
                self.say(alloc, &text)?;
                self.editor.mask(mask);
                self.standing = Standing::On;
                Ok(None)
            }
            Move::Ask { area, command } => Ok(Some(self.ask_area(area, Act::Ask(command)))),
            Move::Look { area, question } => Ok(Some(self.ask_area(area, Act::Look(question)))),
            Move::Count { area } => Ok(Some(self.ask_area(area, Act::Count))),
            Move::Send { to, text } => Ok(Some(self.ask(Request::Send { to, text }))),
            Move::Take => Ok(Some(self.ask(Request::Take))),
            Move::End { text, end } => {
                self.say(alloc, &text)?;
                self.standing = Standing::Over(end);
                Ok(None)
            }
        }
    }

    /// Gives the menus a line or an answer.
    pub(crate) fn give(
        &mut self,
        alloc: Global,
        board: &Board,
        given: &Given,
    ) -> Result<Option<Request>, OutOfMemory>
        requires of { IsFor board.now self.old.place.menu }
        ensures turn { IfOk result (λ request.
            self.new ≡ owing self.old (given_turn board.now self.old.place given.now)) }
        ensures request { IfOk result (λ request.
            request ≡ (given_turn board.now self.old.place given.now).request) }
        ensures hands { IfOk result (λ request. Hands board.now self.new request) }
    {
        let step = self.menu.step(alloc, board, given)?;
        self.move_on(alloc, step)
    }

    /// Answers an event, but for what it leads to as a key.
    fn reply(&mut self, event: Event) -> Result<(), OutOfMemory>
        ensures { OnOk result (self.new ≡ owing self.old
            (says (record self.old.place { options = sides_after self.old.place.options event })
            (option_answer self.old.place.options event ++ yes_of event))) }
    {
        let answer = self.options.step(event);
        self.owed.extend_from_slice(answer.as_slice())?;
        self.owed.extend_from_slice(yes_of(event))?;
        Ok(())
    }

    /// Takes a key into the line, and echoes it while the board echoes. Gives the line that it ends.
    fn press(&mut self, key: Key) -> Result<Option<Line>, OutOfMemory>
        ensures turn { OnOk result (self.new
            ≡ owing self.old
            (says (record self.old.place { typing = typing_after self.old.place.typing key })
            (key_echo self.old.place key))) }
        ensures line { IfOk result (λ line. line ≡ line_of self.old.place.typing key) }
    {
        let typed = self.editor.push(key);
        if self.options.echo() {
            append_echo(&mut self.owed, typed.echo)?;
        }
        Ok(typed.line)
    }

    /// Does what an event leads to.
    fn turn(
        &mut self,
        alloc: Global,
        board: &Board,
        event: Event,
    ) -> Result<Option<Request>, OutOfMemory>
        requires of { IsFor board.now self.old.place.menu }
        requires on { self.old.place.standing ≡ Standing.On }
        ensures turn { IfOk result (λ request.
            self.new ≡ owing self.old (event_turn board.now self.old.place event)) }
        ensures request { IfOk result (λ request.
            request ≡ (event_turn board.now self.old.place event).request) }
        ensures hands { IfOk result (λ request. Hands board.now self.new request) }
    {
        self.reply(event)?;
        let Some(key) = key_of(event) else {
            return Ok(None);
        };
        let Some(line) = self.press(key)? else {
            return Ok(None);
        };
        self.give(alloc, board, &Given::Line(line))
    }

    /// Takes a byte. Behind the end it leads to nothing.
    pub(crate) fn take(
        &mut self,
        alloc: Global,
        board: &Board,
        byte: u8,
    ) -> Result<Option<Request>, OutOfMemory>
        requires of { IsFor board.now self.old.place.menu }
        requires idle { is_waiting self.old.place.standing ≡ false }
        requires room { self.old.taken < MOST_SESSION_BYTES }
        ensures fits { IfOk result (λ request.
            (bytes sent : List ℕ) (answers : List Given) (asked : List Request)
            → HasTalked board.now self.old bytes answers sent asked
            → HasTalked board.now self.new (bytes ++ byte ∷ []) answers sent
            (asked ++ option_to_list request)) }
        ensures hands { IfOk result (λ request. Hands board.now self.new request) }
        ensures counted { IfOk result (λ request. self.new.taken ≡ self.old.taken + 1) }
    {
        self.taken += 1;
        let Some(event) = self.decoder.push(byte) else {
            return Ok(None);
        };
        match self.standing {
            Standing::On => self.turn(alloc, board, event),
            _ => Ok(None),
        }
    }
}
