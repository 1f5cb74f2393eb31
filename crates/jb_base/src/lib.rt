//! Users, the rules of an area and who may do what by them, and the bits of a message's attribute. Byte strings, names, numbers and
//! subfields of `jb_bytes` and the limits of `jb_limits` are handed on: a layer that asks for rules or users needs this crate alone.
#![tactic(auto)]

mod area;
mod attribute;
mod user;

pub use area::{Action, AreaRules, Kind, Rule};
pub use attribute::{DELETED, LOCAL, NODISP, PRIVATE, READ, TYPEECHO, TYPELOCAL};
pub use jb_bytes::{
    Bytes, MSGID, Name, OutOfMemory, Part, RECEIVER_NAME, REPLYID, SENDER_NAME, SUBJECT, Subfield,
    Subfields, first_part, get_u16, get_u32, put_u16, put_u32,
};
pub use jb_limits::{
    HEADERS_CEILING, INDEX_CEILING, JOURNAL_CEILING, LAST_POSTED_NUMBER, LASTREAD_CEILING,
    MOST_ADDRESS_BYTES, MOST_AREAS, MOST_COPIED_MSGID_BYTES, MOST_ENTRIES, MOST_LINE_BYTES,
    MOST_MARKS, MOST_NAME_BYTES, MOST_NODES, MOST_POSTED_TEXT_BYTES, MOST_SESSION_BYTES,
    MOST_SLOTS, MOST_SLOTS_TOGETHER, MOST_SUBFIELD_BYTES, MOST_SUBJECT_BYTES, MOST_TEXT_BYTES,
    MOST_USERS, SHADOW_CEILING, TEXTS_CEILING,
};
pub use user::User;
