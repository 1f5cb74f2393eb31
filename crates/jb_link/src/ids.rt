//! The lowest number with each id, of the messages met so far.
ghost use Rattle.std.specs.Prelude.{◌≡◌, ◌%◌, ◌<◌, ◌≤◌, ℕ, List, IfOk, OnOk, length};
ghost use Rattle.jb_state.specs.declared.loaded.LoadedSlot.{LoadedSlot};
ghost use Rattle.jb_link.specs.Ids.{IsNumberedNow, IsSettled, at_seat, hash_of, msgid_at, number_of};

use crate::id::{hash_of, is_id};
use crate::others::Others;
use crate::slots::msgid_at;
use jb_base::OutOfMemory;
use jb_state::LoadedSlot;
use std::alloc::Global;

/// Seats for each message. Of ids whose hashes fall as if drawn at random one in nine finds its seat taken.
const SEATS: usize = 4;

/// Numbers of messages by their ids. Each id has a seat, by its hash, and the first of those that share one has it: what
/// stands there is the number of its message, or 0 while the seat is free. The ids that come later are among the others.
#[derive(Drop)]
pub(crate) struct Ids<'a> {
    seats: Vec<u32>,
    others: Others<'a>,
}

impl<'a> Ids<'a> {
    /// None yet, and seats for so many messages.
    pub fn new(alloc: Global, count: usize) -> Result<Ids<'a>, OutOfMemory>
        requires { count ≤ 4_294_967_295 }
        ensures { IfOk result (λ ids. IsSettled ids × ((base : ℕ) (slots : List LoadedSlot)
            (id : List ℕ) → number_of base slots ids id ≡ 0)) }
    {
        Ok(Ids {
            seats: vec![in alloc; 0; SEATS * count + 1]?,
            others: Others::new(alloc),
        })
    }

    /// The number of this id, or 0; the first of the slots has the number `base`.
    pub fn number_of(&self, base: u32, slots: &[LoadedSlot], id: &'a [u8]) -> u32
        requires { 0 < length self.now.seats.items }
        ensures { result ≡ number_of base slots.now self.now id.now }
    {
        let number = at_seat(self.seats.as_slice(), id);
        if number == 0 || is_id(msgid_at(base, slots, number), id) {
            number
        } else {
            self.others.number_of(id)
        }
    }

    /// Gives the id of the message with this number that number, where the id has none yet.
    pub fn keep(
        &mut self,
        base: u32,
        slots: &[LoadedSlot],
        id: &'a [u8],
        number: u32,
    ) -> Result<(), OutOfMemory>
        requires number { 1 ≤ number }
        requires id { msgid_at base slots.now number ≡ Some id.now }
        requires settled { IsSettled self.old }
        ensures { OnOk result (IsSettled self.new × IsNumberedNow (number_of base slots.now self.old)
            (number_of base slots.now self.new) id.now number) }
    {
        let seat = seat_of(self.seats.len(), id);
        let first = self.seats[seat];
        if first == 0 {
            self.seats[seat] = number;
            Ok(())
        } else if is_id(msgid_at(base, slots, first), id) {
            Ok(())
        } else {
            self.others.keep(id, number)
        }
    }
}

/// The seat of an id among so many.
fn seat_of(count: usize, id: &[u8]) -> usize
    requires { 0 < count }
    ensures place { result ≡ hash_of id.now % count }
    ensures within { result < count }
{
    (hash_of(id) % count as u64) as usize
}

/// The number at the seat of an id.
fn at_seat(seats: &[u32], id: &[u8]) -> u32
    requires { 0 < length seats.now }
    ensures { result ≡ at_seat seats.now id.now }
{
    seats[seat_of(seats.len(), id)]
}
