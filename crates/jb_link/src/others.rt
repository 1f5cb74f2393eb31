//! The ids whose seats others have.
ghost use Rattle.std.specs.Prelude.{◌≡◌, ◌≤◌, ℕ, List, OnOk};
ghost use Rattle.jb_link.specs.Ids.{IsNumberedNow, number_among};

use crate::id::hash_of;
use jb_base::OutOfMemory;
use std::alloc::Global;
use std::collections::BTreeMap;

/// Numbers by ids, in the order of the hashes and then of the bytes, so that most comparisons are those of two numbers,
/// and ids of one hash cost no more than as many comparisons of bytes. 0 stands for no number.
#[derive(Drop)]
pub(crate) struct Others<'a> {
    numbers: BTreeMap<(u64, &'a [u8]), u32>,
}

impl<'a> Others<'a> {
    pub fn new(alloc: Global) -> Others<'a>
        ensures { (id : List ℕ) → number_among result.numbers id ≡ 0 }
    {
        Others {
            numbers: BTreeMap::new(alloc),
        }
    }

    /// The number of this id, or 0.
    pub fn number_of(&self, id: &'a [u8]) -> u32
        ensures { result ≡ number_among self.now.numbers id.now }
    {
        self.numbers.get(&(hash_of(id), id)).copied().unwrap_or(0)
    }

    /// Gives the id this number, where it has none yet.
    pub fn keep(&mut self, id: &'a [u8], number: u32) -> Result<(), OutOfMemory>
        requires { 1 ≤ number }
        ensures { OnOk result (IsNumberedNow (number_among self.old.numbers)
            (number_among self.new.numbers) id.now number) }
    {
        if self.number_of(id) == 0 {
            self.numbers.insert((hash_of(id), id), number)?;
        }
        Ok(())
    }
}
