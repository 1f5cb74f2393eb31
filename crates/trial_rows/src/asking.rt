//! Who asks, what is asked of an area, and what its rules are.

ghost use Rattle.std.specs.Prelude.{◌≤◌, IfOk, length};
ghost use Rattle.jb_limits.specs.declared.limits.TheConstants.{MOST_ADDRESS_BYTES, MOST_NAME_BYTES, MOST_SLOTS};

use crate::{Row, RowError, Words};
use jb_base::{
    AreaRules, Bytes, Kind, MOST_ADDRESS_BYTES, MOST_NAME_BYTES, MOST_SLOTS, Name, OutOfMemory,
    User,
};
use jb_model::Command;
use jb_state::{Area, Marks, Slots};
use std::alloc::Global;

/// The moment of every call, in seconds since 1970.
pub const MOMENT: u32 = 1_000_000_000;

/// What is done about the message of a number; a pack and a relink are of all messages, with any number.
#[derive(Clone, Copy)]
pub enum Act {
    /// A post to Hello about `abc`, in reply to the number or to 0.
    Post,
    /// A private post to Sysop about `abc`, in reply to the number or to 0.
    Private,
    Read,
    Peek,
    Kill,
    /// The message gets the subject `abcd`.
    Edit,
    Mark,
    Pack,
    Relink,
}

/// The act that this word of a row names.
pub fn act_of(word: &str) -> Option<Act> {
    match word {
        "post" => Some(Act::Post),
        "private" => Some(Act::Private),
        "read" => Some(Act::Read),
        "peek" => Some(Act::Peek),
        "kill" => Some(Act::Kill),
        "edit" => Some(Act::Edit),
        "mark" => Some(Act::Mark),
        "pack" => Some(Act::Pack),
        "relink" => Some(Act::Relink),
        _ => None,
    }
}

/// A user whose name is as long as a name may be.
#[derive(Drop)]
pub struct Caller {
    pub user: User,
    ghost named: { length user.name ≤ MOST_NAME_BYTES },
}

// The user with this name and level, whose number is 7.
fn caller_named(alloc: Global, name: &[u8], level: u8) -> Result<Caller, RowError> {
    if name.len() > MOST_NAME_BYTES {
        return Err(RowError::Bytes(2));
    }
    match Name::copy(alloc, name) {
        Ok(name) => Ok(Caller {
            user: User { name, id: 7, level },
        }),
        Err(_) => Err(RowError::OutOfMemory),
    }
}

/// The user whose name and level stand at this place of a row.
pub fn caller_in(row: &Row, place: usize, words: &mut Words) -> Result<Caller, RowError> {
    let name = row.bytes(place, words);
    let level = row.u8(place.saturating_add(1), words);
    caller_named(words.alloc, name.as_slice(), level)
}

/// The user at a node that follows a plan: `Node 1` and on, of whom each fourth tends the area.
pub fn caller_at(alloc: Global, node: u32) -> Result<Caller, RowError> {
    let level = if node % 4 == 1 { 200 } else { 20 };
    let mut words = Words::new(alloc);
    words.named("Node", u64::from(node));
    let Ok(name) = words.end() else {
        return Err(RowError::OutOfMemory);
    };
    caller_named(alloc, name.as_bytes(), level)
}

// A post about `abc`.
fn post(
    alloc: Global,
    to: &[u8],
    text: &[u8],
    reply_to: u32,
    private: bool,
) -> Result<Command, OutOfMemory> {
    Ok(Command::Post {
        to: Name::copy(alloc, to)?,
        subject: Bytes::copy(alloc, b"abc")?,
        text: Bytes::copy(alloc, text)?,
        reply_to,
        private,
    })
}

// An edit of the message with this number.
fn edit(alloc: Global, number: u32, text: &[u8]) -> Result<Command, OutOfMemory> {
    Ok(Command::Edit {
        number,
        subject: Bytes::copy(alloc, b"abcd")?,
        text: Bytes::copy(alloc, text)?,
    })
}

/// The command of the act about this number by a user, whose name is the text of a post and of an edit.
pub fn command_by(
    alloc: Global,
    user: &User,
    act: Act,
    number: u32,
) -> Result<Command, OutOfMemory> {
    let text = user.name.as_slice();
    match act {
        Act::Post => post(alloc, b"Hello", text, number, false),
        Act::Private => post(alloc, b"Sysop", text, number, true),
        Act::Read => Ok(Command::Read { number }),
        Act::Peek => Ok(Command::Peek { number }),
        Act::Kill => Ok(Command::Kill { number }),
        Act::Edit => edit(alloc, number, text),
        Act::Mark => Ok(Command::SetMark { number }),
        Act::Pack => Ok(Command::Pack),
        Act::Relink => Ok(Command::Relink),
    }
}

/// A local area of as many slots as one may have, read from level 10 on, posted in from 20 on, and tended from 200 on.
pub fn rules_of(alloc: Global) -> Result<AreaRules, RowError>
    ensures slots { IfOk result (λ rules. rules.slots ≤ MOST_SLOTS) }
    ensures address { IfOk result (λ rules. length rules.address ≤ MOST_ADDRESS_BYTES) }
{
    let Ok(address) = Bytes::copy(alloc, b"2:5020/1042") else {
        return Err(RowError::OutOfMemory);
    };
    if address.len() > MOST_ADDRESS_BYTES {
        return Err(RowError::Unknown(0));
    }
    Ok(AreaRules {
        ordinal: 1,
        address,
        kind: Kind::Local,
        read: 10,
        post: 20,
        sysop: 200,
        slots: MOST_SLOTS,
    })
}

/// A plain area from number 1 on without a slot.
pub fn plain_area(alloc: Global) -> Area {
    Area {
        base: 1,
        slots: Slots::new(alloc),
        marks: Marks::new(alloc),
    }
}
