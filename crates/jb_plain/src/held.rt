//! The area as the plain program holds it.
ghost use Rattle.std.specs.Prelude.{◌+◌, ◌≤◌, vec_len};

use jb_state::{Mark, Slot};

/// An area with the numbers of its files that are more than its messages: modcounter, activemsgs, and the lengths of .JHR
/// and .JDT in bytes, which killed messages still take up.
#[derive(Drop)]
pub(crate) struct PlainState {
    pub(crate) base: u32,
    pub(crate) slots: Vec<Slot>,
    pub(crate) marks: Vec<Mark>,
    pub(crate) counter: u32,
    pub(crate) active: u32,
    pub(crate) headers_len: u64,
    pub(crate) texts_len: u64,
    ghost numbers: { base + vec_len slots ≤ 4294967295 },
}
