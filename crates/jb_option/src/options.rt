//! The options as they stand, and the table.
ghost use Rattle.std.specs.Prelude.{◌≡◌, ◌++◌, ◌∷◌, [], List, ℕ, take};
ghost use Rattle.jb_telnet.specs.declared.event.Event.{Event};
ghost use Rattle.jb_option.specs.Table.{Sides, first_sides, greeting_bytes, is_on, verb_answer, side_after, side_of, sides_heard, answer_heard, sides_after, option_answer};
ghost use Rattle.jb_option.specs.Events.{HasLedTo};

use crate::answer::{Answer3, spell};
use crate::side::Side;
use jb_telnet::{Event, IAC, Verb, WILL};
use std::marker::Model;

/// The option of RFC 857.
pub const ECHO: u8 = 1;

/// The option of RFC 858.
pub const SUPPRESS_GO_AHEAD: u8 = 3;

/// How the options of a session stand, from the greeting on.
#[derive(Drop)]
pub struct Options {
    echo: Side,
    quiet: Side,
    caller: Side,
}

impl Model for Options {
    ghost use Rattle.jb_option.specs.Table.{Sides};

    ghost Value = { Sides };

    ghost view = { λ o. record { echo = o.echo; quiet = o.quiet; caller = o.caller } };
}

impl Options {
    /// As they stand when the greeting has been sent.
    pub fn new() -> Options
        ensures exact { result ≡ first_sides }
        ensures fits { HasLedTo result [] [] }
    {
        Options {
            echo: Side::Offered,
            quiet: Side::Offered,
            caller: Side::Off,
        }
    }

    /// What the board sends first: it offers to echo and to suppress go-ahead.
    pub fn greeting(&self) -> [u8; 6]
        ensures { result ≡ greeting_bytes }
    {
        [IAC, WILL, ECHO, IAC, WILL, SUPPRESS_GO_AHEAD]
    }

    /// Whether the board echoes.
    pub fn echo(&self) -> bool
        ensures { result ≡ is_on self.now.echo }
    {
        match self.echo {
            Side::On => true,
            Side::Offered | Side::Off => false,
        }
    }

    /// What is answered to an event, and how the options stand then.
    pub fn step(&mut self, event: Event) -> Answer3
        ensures exact { self.new ≡ sides_after self.old event }
        ensures value { take result.length result.bytes ≡ option_answer self.old event }
        // After any list of events, the answers are those to the whole list.
        ensures fits { (events : List Event) (answers : List (List ℕ))
            → HasLedTo self.old events answers
            → HasLedTo self.new (events ++ event ∷ []) (answers ++ take result.length result.bytes ∷ []) }
    {
        self.answer(event)
    }

    fn answer(&mut self, event: Event) -> Answer3
        ensures exact { self.new ≡ sides_after self.old event }
        ensures value { take result.length result.bytes ≡ option_answer self.old event }
    {
        match event {
            Event::Do(option) => self.hear(Verb::Do, option),
            Event::Dont(option) => self.hear(Verb::Dont, option),
            Event::Will(option) => self.hear(Verb::Will, option),
            Event::Wont(option) => self.hear(Verb::Wont, option),
            _ => spell(None, 0),
        }
    }

    fn hear(&mut self, verb: Verb, option: u8) -> Answer3
        ensures exact { self.new ≡ sides_heard self.old verb option }
        ensures value { take result.length result.bytes ≡ answer_heard self.old verb option }
    {
        let answer = tabled(verb, self.side(verb, option));
        self.set(verb, option);
        spell(answer, option)
    }

    /// How the option stands that the caller speaks of. None where the board does not have it.
    fn side(&self, verb: Verb, option: u8) -> Option<Side>
        ensures { result ≡ side_of self.now verb option }
    {
        match verb {
            Verb::Do | Verb::Dont => {
                match option {
                    ECHO => Some(self.echo),
                    SUPPRESS_GO_AHEAD => Some(self.quiet),
                    _ => None,
                }
            }
            Verb::Will | Verb::Wont => {
                match option {
                    SUPPRESS_GO_AHEAD => Some(self.caller),
                    _ => None,
                }
            }
        }
    }

    fn set(&mut self, verb: Verb, option: u8)
        ensures { self.new ≡ sides_heard self.old verb option }
    {
        let side = stands(verb);
        match verb {
            Verb::Do | Verb::Dont => {
                match option {
                    ECHO => self.echo = side,
                    SUPPRESS_GO_AHEAD => self.quiet = side,
                    _ => {}
                }
            }
            Verb::Will | Verb::Wont => {
                match option {
                    SUPPRESS_GO_AHEAD => self.caller = side,
                    _ => {}
                }
            }
        }
    }
}

/// How an option stands once this was said of it.
fn stands(verb: Verb) -> Side
    ensures { result ≡ side_after verb }
{
    match verb {
        Verb::Will | Verb::Do => Side::On,
        Verb::Wont | Verb::Dont => Side::Off,
    }
}

/// The table's answer, by what is said and how the option stands.
fn tabled(verb: Verb, side: Option<Side>) -> Option<Verb>
    ensures { result ≡ verb_answer verb side }
{
    match (verb, side) {
        (Verb::Do, Some(Side::Off)) => Some(Verb::Will),
        (Verb::Do, None) => Some(Verb::Wont),
        (Verb::Dont, Some(Side::On)) => Some(Verb::Wont),
        (Verb::Will, Some(Side::Off)) => Some(Verb::Do),
        (Verb::Will, None) => Some(Verb::Dont),
        (Verb::Wont, Some(Side::On)) => Some(Verb::Dont),
        _ => None,
    }
}
