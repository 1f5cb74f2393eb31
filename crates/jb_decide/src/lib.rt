//! What each command comes to over an open area: its reply, and its change, as it is done in memory and as a redo.
//!
//! The layer above may rely on this. Over a `Held` of `jb_held`, which is an area as it is loaded, each call answers what the
//! definition of the command says (`Step` of `jb_model`), and what is pending then is nothing, or one `Change` that fits: the area
//! to come is `after` it, its texts are `texts_after` it, and that is what the command leaves. Where the disk tells its files, the
//! redo makes of whatever files hold the area files that hold the one to come, and on each disk it can be committed; that of a
//! pack, of files that hold the packer's copies of the texts too. A letter is right where the disk tells its texts, and on each
//! disk it is that of some texts of the area's length. A disk is at most read.
//!
//! But for a pack no header is moved or gets another number, save that of a message that is edited; this one, under its number, and
//! a post stand behind the others. A kill leaves .JDX as it is.
//! After a pack the live messages stand one behind another, each with its number in its header, and its record is short beside
//! the headers and the index. Which bytes a change writes is said by `jb_change`.
//!
//! A pack is refused just where its definition refuses it ([`refuse_pack`]). The disk's count of faults rises just where a read or
//! a look tells a fault. A linked area stays linked whatever is posted ([`posts_keep_links`]).
#![tactic(auto)]

mod decided;
mod deciding;
mod denial;
mod drafts;
mod editing;
mod edits;
mod error;
mod fields;
mod found;
mod kills;
mod laws;
mod letters;
mod marks;
mod neighbours;
mod outcome;
mod packing;
mod posting;
mod posts;
mod reading;
mod reads;
mod relinking;
mod relinks;
mod subjects;
mod texts;

pub use decided::Decided;
pub use deciding::{decide_kill, decide_mark};
pub use drafts::{LentDraft, LentEdit};
pub use editing::decide_edit;
pub use error::AreaError;
pub use laws::posts_keep_links;
pub use packing::{decide_pack, refuse_pack};
pub use posting::decide_post;
pub use reading::{decide_peek, decide_read};
pub use relinking::decide_relink;
