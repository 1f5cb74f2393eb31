//! The texts that a session says, byte for byte: prompts and fixed lines, lists of areas and of messages, a message as its
//! reader sees it, the line of each reply and fault of an area, and the date of a moment.
//!
//! The layer above may rely on the definitions in `specs/`: each call gives exactly the bytes that they say. Lines end with
//! CR LF (RFC 854, "The NVT printer and keyboard"). Names, subjects, texts and pages come from others: a control character in them
//! (a byte below 32, or 127) is shown as `?`, all other bytes as they are. The byte 255 is not doubled here: what sends the
//! text to a terminal does that. [`start`] and [`letter`] give whole lines with their ends, the others one line without
//! its end; [`append_line_end`] puts one behind it. [`append_listing`] puts the line of [`listing`] behind others. Each call
//! takes a time and memory that grow as the bytes it is given and gives. The other way, [`number_up_to`] reads the number that a
//! user writes in digits.
#![tactic(auto)]

mod answers;
mod dates;
mod digits;
mod draft;
mod letters;
mod lines;
mod standing;
mod writing;

pub use answers::{fault, reply};
pub use dates::date;
pub use digits::number_up_to;
pub use letters::letter;
pub use lines::{
    append_listing, area_line, figures, fixed, listing, node_full, page_line, prompt, replying,
    start, welcome,
};
pub use standing::Fixed;
pub use writing::append_line_end;
