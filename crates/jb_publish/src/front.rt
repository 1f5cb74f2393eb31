//! What an end knows of the published list: a beginning of it, and how long that is.
ghost use Rattle.std.specs.Prelude.{◌≡◌, length};

use crate::list::ListSeen;

mod calls;

/// A beginning of the published list, and its length. No entry lies in it: the list exists in proofs alone.
#[derive(Drop)]
pub struct Front<E> {
    pub(crate) count: u64,
    pub(crate) seen: ListSeen<E>,
    ghost counted: { count ≡ length seen.log },
}
