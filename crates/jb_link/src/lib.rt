//! The reply links of an area, and an index by which they are found: who answers whom (JAM, "Reply linking").
//!
//! The parent of a message with a REPLYID is the lowest live lower-numbered message whose MSGID has the same bytes,
//! without one the ReplyTo that its header keeps, where that is live and lower. Reply1st is the least live number with
//! this parent, ReplyNext the least greater one with the same. The layer above may rely on the definitions of
//! `jb_state`: each call gives what they say of the state that is loaded, whatever its texts are, since no text bears
//! on a link.
//!
//! Ids are compared by their bytes and never by the CRCs that headers tell, so a base in which all ids have one CRC costs
//! no more. Of `s` slots, with `n` live messages, [`relink_plan`] takes a time of `s` where the hashes of the ids fall as if
//! drawn at random, and of `s` plus `n log n` comparisons of ids whoever chose the ids. Its memory is 16 bytes a slot for the
//! ids, some 40 for each id whose seat another has, which is one in nine at most, and 4 bytes a slot for each list of numbers;
//! [`changed`] takes a time of `n`. [`is_live`] and [`message_at`] look at one slot.
//!
//! An open area keeps a [`Replies`] beside it. While that is the index of the area (`IsIndexOf`), [`Replies::parent`] finds a
//! parent by one search, [`Replies::splice`] the header that a reply changes by three, of log n comparisons each, and
//! [`Replies::orphans`] lists the replies of a message, with the parents that they have without it, by six and a step for each.
//! [`Replies::thread`] makes a search for each live message, and takes 4 bytes a slot besides its answer. A post
//! and a kill change the index by [`Replies::posted`] and [`Replies::killed`], which take no memory; a reading, a mark and a relink
//! leave it as it is. [`Replies::of`] makes n log n comparisons, and takes 4 bytes for each MSGID, 4 for each REPLYID and 8 for
//! each kept number. Its ids are compared by a hash of their bytes, and by the bytes where two hashes are the same. Its lists
//! stand in pieces (`jb_tiered`), so that a post and a kill cost about the same in each area: besides the searches they move up
//! to 256 elements within one piece of each list, and one element for each 512 that stand behind the place.
#![tactic(auto)]

mod changes;
mod found;
mod hashed;
mod id;
mod id_lists;
mod ids;
mod kept;
mod keys;
mod laws;
mod lists;
mod orphans;
mod others;
mod parents;
mod relinking;
mod replies;
mod slots;
mod splicing;
mod threads;

pub use changes::changed;
pub use found::{copied_msgid, is_live, message_at};
pub use laws::{rests_on_slots, stays_under_heads, stays_under_relink};
pub use lists::Numbers;
pub use orphans::Orphan;
pub use relinking::relink_plan;
pub use replies::Replies;
pub use splicing::Spliced;
