//! The options of a Telnet session (RFC 855): the board echoes (RFC 857) and both sides suppress go-ahead (RFC 858).
//!
//! The layer above may rely on this: the answer to each event is the table's, and what one statement begins
//! ends after at most three answers.
#![tactic(auto)]

mod answer;
mod laws;
mod options;
mod side;

pub use answer::Answer3;
pub use laws::exchanges_end;
pub use options::{ECHO, Options, SUPPRESS_GO_AHEAD};
pub use side::Side;
