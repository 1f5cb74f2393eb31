//! What a pack makes of an area as it is loaded.
ghost use Rattle.jb_pack.specs.Laws.{CopiesStay, HoldsPacked, PackKeepsSound, PacksAsDefined};

/// The area after a pack, as it is loaded, stands for the packed state.
///
/// It computes nothing: its contract is the law.
pub fn packs_as_defined()
    ensures { PacksAsDefined }
{}

/// Files with the bytes of the area after a pack hold that area.
///
/// It computes nothing: its contract is the law.
pub fn packed_is_held()
    ensures { HoldsPacked }
{}

/// A sound area is sound after a pack.
///
/// It computes nothing: its contract is the law.
pub fn pack_keeps_sound()
    ensures { PackKeepsSound }
{}

/// What a packer has copied stays so as long as .NDT is as it was and .JDT keeps the bytes that it had, as it does under
/// each change of the area but a pack.
///
/// It computes nothing: its contract is the law.
pub fn copies_stay()
    ensures { CopiesStay }
{}
