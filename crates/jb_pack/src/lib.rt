//! A pack of an area as one change of its files: killed messages are dropped, and headers, index and texts are written anew
//! without a gap.
//!
//! The layer above may rely on this: [`plan`] puts into an empty `Redo` a change that makes of any files that hold the area
//! files that hold the packed one (`Brings`, `StandPacked`), with the texts of the live messages in the order of their numbers; the
//! packed area, as it is loaded, is `packed`, and it stands for the state that the definition of a pack gives
//! ([`packs_as_defined`]). Where the journal may be as long as its record the change may be committed as it is; [`pack_loaded`]
//! then packs the area in memory, and takes none.
//! A [`Packer`] comes to the same files by a short record: it copies the texts into .NDT first, part by part, while the area
//! goes on, and its change names them there. The records are those of the JAM message base proposal (revision 1, "Header
//! file", "Message header", "SubFields", "Index file").
#![tactic(auto)]

mod copied;
mod copying;
mod error;
mod files;
mod finishing;
mod headers;
mod laws;
mod laying;
mod moving;
mod packer;
mod packing;
mod place;
mod planning;
mod reaching;
mod run;
mod shadow;
mod sizes;
mod slots;
mod stepping;
mod texts;

pub use error::PackError;
pub use laws::{copies_stay, pack_keeps_sound, packed_is_held, packs_as_defined};
pub use moving::pack_loaded;
pub use packer::Packer;
pub use packing::Packing;
pub use planning::{pack_comes_to, plan};
pub use run::PACK_STEP_BYTES;
