//! From keys to lines: one line of at most 78 bytes in place, edited as it is typed, and the echo of each key.
//!
//! The layer above may rely on this: after any list of keys, the lines that it was given are those of the whole list,
//! each with its place, and the echo of each key is the table's. A line's end that comes as CR LF, CR NUL, CR or LF
//! counts once (RFC 854, "The NVT printer and keyboard").
#![tactic(auto)]

mod editor;
mod key;
mod line;

pub use editor::{LineEditor, Typed};
pub use key::{Echo, Key};
pub use line::Line;
