//! What users ask about an area without changing it: lists of its messages and its figures, answered from an index of
//! the area that needs neither its texts nor its subfields.
//!
//! The layer above may rely on this: [`Index::of`] makes the index of an area that is loaded, from the parents that
//! [`parents_of`] gives, and [`Index::ask`] answers each question with the filter of the index's summaries that the
//! question names. Of the index of an area such an
//! answer is what the area itself shows ([`answers_of_the_area`]). [`unread_in`] counts what a user has not read without an
//! index.
//!
//! An index is made once and then follows its area: [`Op::of`] says what a change of the area makes of it, from the area as it is
//! loaded before the change and the index of its replies (`jb_link`), and [`Index::absorb`] makes the index of the area after it of
//! that before it. An op is made before the change is committed, since it may want memory; `absorb` wants none, since
//! [`Index::of`] has taken the room for as many summaries and marks as the area may ever have. [`OpEdit::Reset`] brings an index that was made anew,
//! for an area that was reopened.
//!
//! The summaries stand in pieces (`jb_tiered`), so that a change of one message copies none of the others.
//!
//! Cost, in an area of n messages: [`Index::of`] takes one step a message, and sorts the marks; [`Index::copied`] copies
//! memory. [`Index::listed`],
//! [`Index::unread`] and [`Index::received`] make one search of log n steps for the first number, and then look at each
//! message from there until they have enough; [`Index::unread`] begins above the number read last, however low the first
//! number is. [`Index::unread_count`] makes such a search too, and looks once at each message above the number read last;
//! [`Index::figures`] looks once at each of the area besides. A thread is
//! found by one walk from the lowest number to the highest, in which each parent is looked up by one search, and takes 4
//! bytes a message while it lasts. [`Index::absorb`] makes one or two searches of log n steps for each edit: an op of a post,
//! a reading, an edit, a mark or a pack has one edit, one of a kill has one and one more for each answer to the message. Only a kill
//! moves others, up to 256 within a piece and one for each 512 behind it, and a Reset copies all. Of a kill [`Op::of`]
//! makes six searches in the index of the replies that an open area keeps, each of log n comparisons, and a step for each answer to
//! the message; of any other change it takes the same time in each area.
#![tactic(auto)]

mod changes;
mod counting;
mod editing;
mod index;
mod kills;
mod laws;
mod listing;
mod making;
mod op;
mod parents;
mod shown;
mod threads;

pub use counting::unread_in;
pub use index::Index;
pub use laws::answers_of_the_area;
pub use op::{Op, OpEdit};
pub use parents::parents_of;
