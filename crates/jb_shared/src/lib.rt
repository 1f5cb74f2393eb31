//! One area that many nodes use at once: each call of a node stands once, in its node's order, in one history of the area, and looks
//! wait for nobody.
//!
//! The layer above may rely on this. [`SharedArea::new`] puts an open area behind a turn and makes a [`Pass`] for each node.
//! [`SharedArea::call`] waits for the turn, asks a command and records what came of it; a pack takes some turns before, in each of which
//! it copies a part of the texts, and the calls of others go in between. [`SharedArea::look`] and
//! [`SharedArea::unread_count`] take no turn: they see an index in two copies, of which each call that is done shows one anew, and so
//! all that is settled of the history that the node has seen, or more. [`SharedArea::backup`] copies the area onto an empty disk in turns of
//! its own, between which the calls of others go on; it changes nothing of the area, and leaves no entry. [`SharedArea::close`] takes all
//! passes and gives the area back, with one history of which each pass has seen a beginning. Whenever the machine stops, the files open to
//! the area after a beginning of that history. What the disk holds is said where it tells its files; that calls are numbered and that counts
//! of faults rise is said always.
#![tactic(auto)]

mod asking;
mod backed;
mod backing;
mod backing_up;
mod call;
mod calling;
mod change;
mod changing;
mod closing;
mod doing;
mod entering;
mod error;
mod laws;
mod looking;
mod making;
mod noting;
mod opening;
mod parts;
mod pass;
mod published;
mod refusal;
mod shared;
mod showing;
mod shown;
mod stepping;

pub use backed::Backed;
pub use error::{CloseError, SharedError};
pub use laws::{settled_is_longest, shown_survives_stops, texts_go_on};
pub use opening::Opening;
pub use pass::Pass;
pub use refusal::Refusal;
pub use shared::SharedArea;
