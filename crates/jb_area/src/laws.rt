//! To what a backup of an area opens, and that reading its files changes nothing of it.
ghost use Rattle.jb_area.specs.Backups.{BackupsOpen, ReadingsKeepAreas};

use jb_disk::Disk;

/// What is backed up of files that hold an area, of at most as many slots as any may have, opens to the state of that area, in
/// which .JHR and .JDT count no more bytes than their ceilings.
///
/// It computes nothing: its contract is the law.
pub fn backups_open()
    ensures { BackupsOpen }
{}

/// An open area of which nothing changed but that its disk was read: at rest, with a call begun or in doubt, it is so still, by
/// the same texts and with the same to come.
///
/// It computes nothing: its contract is the law.
pub fn readings_keep_areas<D: Disk>()
    ensures { ReadingsKeepAreas D.device }
{}
