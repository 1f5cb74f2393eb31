//! What a session says and asks, as one function of the bytes of its caller and of what is answered.
//!
//! The layer above may rely on this: whatever the pieces in which the bytes come, what a [`Talk`] has handed out is what the
//! definition of a conversation in `specs/` says of all of them, with these answers (`HasTalked`). Telnet is that of RFC 854, 855, 857 and 858.
#![tactic(auto)]

mod keys;
mod laws;
mod standing;
mod talk;
mod turning;

pub use laws::nobody_asks_before_log_in;
pub use standing::Standing;
pub use talk::Talk;
