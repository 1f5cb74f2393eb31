//! What an area is: a plain numbered list of slots, with marks of what its users have read.
//!
//! The layers above may rely on the definitions in `specs/`: the state of an area, when it is well formed, and the form in
//! which it is loaded, without its texts; the reply links; what a user sees, and asks without changing anything; and what a
//! change makes of the area in each form. No command and no reply stands here.
#![tactic(auto)]

mod area;
mod change;
mod links;
mod loaded;
mod loaded_marks;
mod look;
mod mark;
mod message;
mod room;
mod short;
mod summary;

pub use area::{Area, Message, Slot, Slots};
pub use change::{Change, HeadAt};
pub use links::{Links, Plan};
pub use loaded::{Loaded, LoadedMessage, LoadedSlot, LoadedSlots};
pub use loaded_marks::LoadedMarks;
pub use look::{Answer, Barred, LookError, Question, SharedFault};
pub use mark::{Mark, Marks};
pub use message::Head;
pub use room::{SlotRoom, places_behind};
pub use short::Short;
pub use summary::{Figures, Summaries, Summary};
