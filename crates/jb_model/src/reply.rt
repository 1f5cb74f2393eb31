//! What an area answers.

use crate::Field;
use jb_base::{Bytes, Name, Rule};

/// A message as it is shown. Sender, receiver, subject, MSGID and REPLYID are the data of the first subfield of their kind,
/// empty where there is none; the links are the fields of the header, 0 for none; dates are seconds since 1970.
#[derive(Debug)]
pub struct Letter {
    pub number: u32,
    pub from: Name,
    pub to: Name,
    pub subject: Bytes,
    pub msgid: Bytes,
    pub reply: Bytes,
    pub written: u32,
    pub attribute: u32,
    pub reply_to: u32,
    pub reply_first: u32,
    pub reply_next: u32,
    pub text: Bytes,
}

// Whoever lets go of one does so in one call.
impl Drop for Letter {
    fn drop(self) {
        let Letter {
            number: _number,
            from: _from,
            to: _to,
            subject: _subject,
            msgid: _msgid,
            reply: _reply,
            written: _written,
            attribute: _attribute,
            reply_to: _reply_to,
            reply_first: _reply_first,
            reply_next: _reply_next,
            text: _text,
        } = self;
    }
}

/// The answer to a command. From `Denied` on it is a refusal, and the area is as it was.
#[derive(Debug)]
pub enum Reply {
    /// The new message has this number.
    Posted { number: u32 },
    /// The message with this number is edited.
    Edited { number: u32 },
    /// The message that was read or looked at.
    Text { letter: Letter },
    /// The message with this number is killed.
    Killed { number: u32 },
    /// The user's mark now.
    Marked { last: u32, high: u32 },
    /// The base number now, how many messages are live, and how many killed ones were dropped.
    Packed { base: u32, live: u32, dropped: u32 },
    /// In how many messages a link changed.
    Relinked { changed: u32 },
    /// This rule of the area refuses the act.
    Denied { rule: Rule },
    /// The number names no message that the user may see; of a mark, no number below the next one.
    NoMessage { number: u32 },
    /// This part of a post or of an edit is too long, with its length in bytes.
    TooLong { field: Field, length: u64 },
    /// This part of a post is empty and must not be.
    EmptyName { field: Field },
    /// The area has as many slots as its rules allow.
    SlotsFull { slots: u32 },
    /// The edited message would have more bytes of subfields than a header may have, with how many.
    SubfieldsFull { length: u64 },
    /// .JHR would exceed its ceiling, with the length that it would have, in bytes.
    HeadersFull { length: u64 },
    /// .JDT would exceed its ceiling, with the length that it would have, in bytes.
    TextFull { length: u64 },
    /// The next number is above the greatest that a posted message may have.
    NumbersSpent { next: u32 },
    /// The user has no mark, and there are as many as an area may have.
    MarksFull { marks: u32 },
}

// Whoever lets go of one does so in one call.
impl Drop for Reply {
    fn drop(self) {
        match self {
            Reply::Posted { number: _number } => {}
            Reply::Edited { number: _number } => {}
            Reply::Text { letter: _letter } => {}
            Reply::Killed { number: _number } => {}
            Reply::Marked {
                last: _last,
                high: _high,
            } => {}
            Reply::Packed {
                base: _base,
                live: _live,
                dropped: _dropped,
            } => {}
            Reply::Relinked { changed: _changed } => {}
            Reply::Denied { rule: _rule } => {}
            Reply::NoMessage { number: _number } => {}
            Reply::TooLong {
                field: _field,
                length: _length,
            } => {}
            Reply::EmptyName { field: _field } => {}
            Reply::SlotsFull { slots: _slots } => {}
            Reply::SubfieldsFull { length: _length } => {}
            Reply::HeadersFull { length: _length } => {}
            Reply::TextFull { length: _length } => {}
            Reply::NumbersSpent { next: _next } => {}
            Reply::MarksFull { marks: _marks } => {}
        }
    }
}
