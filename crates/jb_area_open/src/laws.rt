//! That what opens is opened, backups too, and that a backup which is not done is refused.
ghost use Rattle.jb_area_open.specs.Backups.{BackupsAreOpened, BackupsHaveOneState, UnsignedBasesAreRefused};
ghost use Rattle.jb_area_open.specs.Laws.{RefusesNothingThatOpens};

/// A base that opens to an area of at most so many slots is refused for nothing that it holds: behind an open gate stands the
/// record that says so, and the files pass each test. So [`open_area`](crate::open_area) opens it, but where a fault or want of
/// memory comes between.
///
/// It computes nothing: its contract is the law.
pub fn what_opens_is_not_refused()
    ensures { RefusesNothingThatOpens }
{}

/// A base whose backup was not signed, or had just been begun, opens to no area: [`open_area`](crate::open_area) refuses it as
/// `ShortHeader` or `BadSignature`, but where a fault or want of memory comes before.
///
/// It computes nothing: its contract is the law.
pub fn unsigned_bases_are_refused()
    ensures { UnsignedBasesAreRefused }
{}

/// A backup of an area of at most so many slots is a base that opens, so that it is refused for nothing that it holds. It opens
/// to the state of that area and to no other.
///
/// It computes nothing: its contract is the law.
pub fn backups_are_opened()
    ensures opened { BackupsAreOpened }
    ensures one { BackupsHaveOneState }
{}
