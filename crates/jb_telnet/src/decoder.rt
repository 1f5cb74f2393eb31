//! From bytes to events, one byte a call.
ghost use Rattle.std.specs.Prelude.{◌≡◌, ◌↔◌, ◌++◌, ◌∷◌, [], List, ℕ, Some};
ghost use Rattle.jb_telnet.specs.declared.event.Event.{Event};
ghost use Rattle.jb_telnet.specs.Codes.{said};
ghost use Rattle.jb_telnet.specs.Front.{command_event};
ghost use Rattle.jb_telnet.specs.Phases.{first_behind, first_or_given, EndsInText};

use crate::codes::{AYT, DO, DONT, EC, EL, IAC, SB, SE, WILL, WONT};
use crate::event::Event;
use crate::verb::Verb;
use std::marker::Model;

/// Where in a unit the stream is.
#[derive(Clone, Copy)]
enum Phase {
    /// Between units.
    Text,
    /// Behind IAC.
    Command,
    /// Behind IAC and a verb.
    Verb(Verb),
    /// In a subnegotiation.
    Block,
    /// In a subnegotiation, behind the first byte of a pair.
    Escape,
}

/// The events of a stream, byte by byte. It keeps where it is in a unit, and no bytes.
///
/// It is seen as bytes that stand for those of the unit that it is in: all of them, but for what an open
/// subnegotiation holds.
#[derive(Drop)]
pub struct Decoder {
    phase: Phase,
}

impl Model for Decoder {
    ghost use Rattle.std.specs.Prelude.{List, ℕ};
    ghost use Rattle.jb_telnet.specs.Phases.{phase_bytes};

    ghost Value = { List ℕ };

    ghost view = { λ d. phase_bytes d.phase };
}

impl Decoder {
    ghost use Rattle.jb_telnet.specs.Units.{StartsWith};
    ghost use Rattle.jb_telnet.specs.Reading.{HasRead, events_given};

    /// Between units, with no byte taken.
    pub fn new() -> Decoder
        ensures { HasRead result [] [] }
    {
        Decoder { phase: Phase::Text }
    }

    /// Takes one byte, and gives the event of the unit that it ends, where it ends one.
    pub fn push(&mut self, byte: u8) -> Option<Event>
        ensures found { (event : Event)
            → (result ≡ Some event) ↔ StartsWith event (self.old ++ byte ∷ []) [] }
        // After any list of pushes, the events are those of all the bytes.
        ensures fits { (bytes : List ℕ) (events : List Event) → HasRead self.old bytes events
            → HasRead self.new (bytes ++ byte ∷ []) (events ++ events_given result) }
    {
        let (phase, event) = step(self.phase, byte);
        self.phase = phase;
        event
    }
}

fn step(phase: Phase, byte: u8) -> (Phase, Option<Event>)
    ensures first { (more : List ℕ)
        → first_behind phase (byte ∷ more) ≡ first_or_given result.0 result.1 more }
    ensures text { EndsInText result.0 result.1 }
{
    match phase {
        Phase::Text => {
            if byte == IAC {
                (Phase::Command, None)
            } else {
                (Phase::Text, Some(Event::Byte(byte)))
            }
        }
        Phase::Command => command(byte),
        Phase::Verb(verb) => (Phase::Text, Some(say(verb, byte))),
        Phase::Block => {
            if byte == IAC {
                (Phase::Escape, None)
            } else {
                (Phase::Block, None)
            }
        }
        Phase::Escape => {
            if byte == SE {
                (Phase::Text, Some(Event::Sub))
            } else {
                (Phase::Block, None)
            }
        }
    }
}

/// The byte behind IAC.
fn command(code: u8) -> (Phase, Option<Event>)
    ensures first { (more : List ℕ)
        → first_behind Phase.Command (code ∷ more) ≡ first_or_given result.0 result.1 more }
    ensures text { EndsInText result.0 result.1 }
{
    match code {
        SB => (Phase::Block, None),
        WILL => (Phase::Verb(Verb::Will), None),
        WONT => (Phase::Verb(Verb::Wont), None),
        DO => (Phase::Verb(Verb::Do), None),
        DONT => (Phase::Verb(Verb::Dont), None),
        _ => (Phase::Text, Some(lone(code))),
    }
}

/// IAC and one byte.
fn lone(code: u8) -> Event
    ensures { result ≡ command_event code }
{
    match code {
        IAC => Event::Byte(IAC),
        AYT => Event::AreYouThere,
        EC => Event::EraseChar,
        EL => Event::EraseLine,
        _ => Event::Other(code),
    }
}

/// IAC, a verb and an option.
fn say(verb: Verb, option: u8) -> Event
    ensures { result ≡ said verb option }
{
    match verb {
        Verb::Will => Event::Will(option),
        Verb::Wont => Event::Wont(option),
        Verb::Do => Event::Do(option),
        Verb::Dont => Event::Dont(option),
    }
}
