//! The doors that a host in memory has handed out.
ghost use Rattle.std.specs.Prelude.{◌≡◌, vec_capacity, vec_len};
ghost use Rattle.jb_host.specs.Desk.{door_out, has_door, with_door};
ghost use Rattle.jb_host.specs.Entrances.{IsOfNode, by_node};
ghost use Rattle.jb_host.specs.Memory.{memory_gate};

use crate::memory_door::MemDoor;

/// The door of a node that was handed out, once it is back.
#[derive(Drop)]
pub struct HandedOut {
    pub(crate) node: u32,
    pub(crate) door: Option<MemDoor>,
}

/// The place of the first entry with this node.
pub(crate) fn entry_of(entries: &[HandedOut], node: u32) -> Option<usize>
    ensures { IsOfNode entries.now node result }
{
    for k in 0..entries.len() {
        if node == entries[k].node {
            return Some(k);
        }
    }
    None
}

/// Puts a door at the first entry with this node, if there is one.
pub(crate) fn put_at(entries: &mut Vec<HandedOut>, node: u32, door: MemDoor)
    ensures back { by_node entries.old.items node ≡ door_out → by_node entries.new.items
        ≡ with_door node (has_door (memory_gate door)) (by_node entries.old.items) }
    ensures len { vec_len entries.new ≡ vec_len entries.old }
    ensures room { vec_capacity entries.new ≡ vec_capacity entries.old }
{
    if let Some(k) = entry_of(entries.as_slice(), node) {
        entries[k].door = Some(door);
    }
}
