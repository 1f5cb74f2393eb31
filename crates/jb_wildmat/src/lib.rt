//! Which names a wildmat takes (RFC 3977 section 4): patterns with commas between them, of which the last that takes a name decides.
//!
//! The layer above may rely on `specs/Wildmats.antt`: [`takes`] answers what stands there, for all bytes, without memory.
#![tactic(auto)]

mod pattern;
mod wildmat;

pub use wildmat::takes;
