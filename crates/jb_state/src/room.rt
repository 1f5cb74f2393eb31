//! Room for the slots of an area, which grows by doubling.
ghost use Rattle.std.specs.Prelude.{◌≡◌, ◌+◌, ◌*◌, ◌<◌, ◌≤◌, ◌^◌, [], length, IfOk, OnOk, OnErr, vec_capacity};
ghost use Rattle.jb_state.specs.Room.{HasPlaceBeside, HasPlaces, IsWider};

use crate::LoadedSlot;
use jb_base::OutOfMemory;
use std::alloc::Global;
use std::marker::Model;

/// For how many there is to be room, where so many are there and one more comes: the least power of two above them.
pub fn places_behind(taken: u32) -> u32
    requires { taken < 2 ^ 31 }
    ensures { IsWider taken result }
{
    (taken + 1).next_power_of_two()
}

/// Places for slots, none of which is taken. Contracts see how many there are. A post that finds no place brings them, so that its
/// change takes no memory when it is done.
#[derive(Drop)]
pub struct SlotRoom {
    items: Vec<LoadedSlot>,
}

impl Model for SlotRoom {
    ghost use Rattle.std.specs.Prelude.{◌≡◌, ℕ, [], vec_capacity};

    ghost Value = { ℕ };

    ghost view = { λ r. vec_capacity r.items };

    ghost invariant = { λ r. r.items.items ≡ [] };
}

impl SlotRoom {
    /// So many places.
    pub fn new(alloc: Global, places: u32) -> Result<SlotRoom, OutOfMemory>
        ensures { IfOk result (λ room. room ≡ places) }
    {
        let items = Vec::with_capacity(alloc, places as usize)?;
        Ok(SlotRoom { items })
    }

    /// The places, as a list without an element.
    fn into_items(self) -> Vec<LoadedSlot>
        ensures items { result.items ≡ [] }
        ensures places { vec_capacity result ≡ self }
    {
        let SlotRoom { items } = self;
        items
    }
}

/// Makes a place for one more, where none is free.
pub(crate) fn make_place(items: &mut Vec<LoadedSlot>) -> Result<(), OutOfMemory>
    requires { HasPlaces (length items.old.items) (vec_capacity items.old) }
    ensures items { items.new.items ≡ items.old.items }
    ensures place { OnOk result (HasPlaces (length items.new.items + 1) (vec_capacity items.new)) }
    ensures kept { OnErr result (vec_capacity items.new ≡ vec_capacity items.old) }
{
    let len = items.len();
    let places = (len + 1).next_power_of_two();
    items.reserve_exact(places - len)?;
    Ok(())
}

/// Moves all slots into this room, where no place may be free.
pub(crate) fn move_where_full(items: &mut Vec<LoadedSlot>, wider: Option<SlotRoom>)
    requires room { HasPlaces (length items.old.items) (vec_capacity items.old) }
    requires place { HasPlaceBeside (length items.old.items) wider }
    ensures items { items.new.items ≡ items.old.items }
    ensures place { HasPlaces (length items.new.items + 1) (vec_capacity items.new) }
{
    if !items.len().is_power_of_two() {
        return;
    }
    let Some(room) = wider else { unreachable!() };
    let mut places = room.into_items();
    let Ok(()) = places.append(items) else {
        unreachable!()
    };
    *items = places;
}
