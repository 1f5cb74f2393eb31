//! One caller's session over a link: what is sent is what a speaker says over the bytes that came and the answers to its requests.
//!
//! The layer above may rely on [`serve_as`], and on [`serve_session`] and [`serve_news`] for callers by Telnet and news readers: how a
//! session ends, why, what was sent, and what it asked on the passes of its node and with its pager (`ServedBy`, `Served`, `ServedNews` in
//! `specs/`), on every link, also one that tells nothing. All bytes are made by the speaker, all answers by `jb_shared`, `jb_page` and the
//! node's clock; here is the loop between them.
#![tactic(auto)]

mod end;
mod exchange;
mod laws;
mod log;
mod news;
mod sending;
mod session;

pub use end::{NewsEnd, SessionEnd};
pub use laws::{looks_never_fall, pages_are_asked};
pub use news::serve_news;
pub use session::{serve_as, serve_session};
