//! The disks of a host in memory.
ghost use Rattle.std.specs.Prelude.{◌≡◌, None, IfNone, IfSome};
ghost use Rattle.jb_disk.specs.Memory.{memory_device};
ghost use Rattle.jb_host.specs.Desk.{handed_out, has_disk, with_place};
ghost use Rattle.jb_host.specs.Shelves.{IsShelfAt, shelved};

use jb_bytes::Bytes;
use jb_disk::MemDisk;

/// A place for the disk of one base.
pub struct Shelf {
    pub(crate) dir: Bytes,
    pub(crate) name: Bytes,
    pub(crate) disk: Option<MemDisk>,
}

// Whoever lets go of one does so in one call.
impl Drop for Shelf {
    fn drop(self) {
        let Shelf {
            dir: _dir,
            name: _name,
            disk: _disk,
        } = self;
    }
}

/// The place of the first shelf with this folder and name.
pub(crate) fn shelf_at(shelves: &[Shelf], dir: &[u8], name: &[u8]) -> Option<usize>
    ensures { IsShelfAt shelves.now dir.now name.now result }
{
    for k in 0..shelves.len() {
        let shelf = &shelves[k];
        if shelf.dir.as_slice() == dir && shelf.name.as_slice() == name {
            return Some(k);
        }
    }
    None
}

/// Takes off what stands on a shelf.
fn take_off(shelf: &mut Shelf) -> Option<MemDisk>
    ensures found { result ≡ shelf.old.disk }
    ensures dir { shelf.new.dir ≡ shelf.old.dir }
    ensures name { shelf.new.name ≡ shelf.old.name }
    ensures out { shelf.new.disk ≡ None }
{
    shelf.disk.take()
}

/// Takes the disk off the first shelf with this folder and name, if one stands there.
pub(crate) fn take_from(shelves: &mut Vec<Shelf>, dir: &[u8], name: &[u8]) -> Option<MemDisk>
    ensures found { IfSome result (λ disk.
        shelved shelves.old.items dir.now name.now ≡ has_disk (memory_device disk)) }
    ensures out { IfSome result (λ _. shelved shelves.new.items
        ≡ with_place dir.now name.now handed_out (shelved shelves.old.items)) }
    ensures none { IfNone result (shelves.new.items ≡ shelves.old.items) }
{
    let k = shelf_at(shelves.as_slice(), dir, name)?;
    if shelves[k].disk.is_none() {
        return None;
    }
    let taken = take_off(&mut shelves[k]);
    taken
}

/// Puts a disk on the first shelf with this folder and name, if there is one.
pub(crate) fn put_on(shelves: &mut Vec<Shelf>, dir: &[u8], name: &[u8], disk: MemDisk)
    ensures { shelved shelves.old.items dir.now name.now ≡ handed_out
        → shelved shelves.new.items ≡ with_place dir.now name.now (has_disk (memory_device disk))
        (shelved shelves.old.items) }
{
    if let Some(k) = shelf_at(shelves.as_slice(), dir, name) {
        shelves[k].disk = Some(disk);
    }
}
