//! The write side of a base: the changes of an open area as changes of its files, and the records that they write (JAM,
//! "Header file", "Message header", "SubFields", "Index file", "Lastread file").
//!
//! The layer above may rely on this: of whatever files hold an area, the redo of a change ([`put`]) makes files that hold the
//! area after it (`after` of `jb_state`), and keeps each header in its place, with its MessageNumber, but that of a message that
//! is edited (`makes`). A message that is posted has the next number, and one that is edited, whose header comes behind all
//! others, the number that it had (`numbered`). Of the bytes that the files have it may write these alone (`leaves`): ModCounter
//! and ActiveMsgs, and of a header that is read TimesRead to Attribute, of one that is killed Attribute, at a post the links of
//! the neighbour, at an edit the index record of the message, at a relink the links of live messages; or the record of a mark.
//! All but a post and an edit leave the index as it is (`leaves`). The redo may be written into the journal (`writable`), and its
//! room stays (`room`, `kept`). [`put_short`] says the same of the changes that take no memory.
//!
//! It is made of small changes, which stand alone too: where the redo so far makes of files that hold one area files that hold
//! another, a small change puts itself behind, and the redo then makes files that hold that other area with the small change
//! (`makes` of each): other counts, other links, the traces of a reading, the bit of a kill, another mark. The small changes take
//! no memory: the room that they spend is said, and is there before (`room`). [`put_post`] and [`put_new_mark`] begin an empty
//! redo: they make the files longer, and leave each byte that these have (`appends`). No piece of a redo is seen above.
#![tactic(auto)]

mod area;
mod base;
mod changes;
mod editing;
mod emptying;
mod header;
mod heading;
mod laws;
mod marking;
mod piece;
mod posting;
mod relinking;

pub use area::{put_counts, put_mark};
pub use base::{NO_PASSWORD, new_loaded, put_base};
pub use changes::{put, put_short};
pub use header::{put_kill, put_links, put_reading};
pub use marking::put_new_mark;
pub use posting::{SPARE_BYTES, SPARE_PIECES, put_post};
