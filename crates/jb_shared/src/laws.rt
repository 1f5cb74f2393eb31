//! What is settled of a history, in the words of the area's definition, what no stop takes back, and what packs alone take back.
ghost use Rattle.jb_shared.specs.Laws.{SettledIsLongest, ShownSurvivesStops};
ghost use Rattle.jb_shared.specs.Texts.{TextsGoOn};

use jb_disk::Disk;

/// Of a legal history, where the disk tells its files, all that is settled is the longest beginning after which the area is settled.
///
/// It computes nothing: its contract is the law.
pub fn settled_is_longest()
    ensures { SettledIsLongest }
{}

/// Whatever lies in the turn for a history, where the disk tells its files: what looks see is all that is settled of the history, and
/// what is read of the files, and whatever a crash leaves of them, opens to the area after the history, which begins with that.
///
/// It computes nothing: its contract is the law.
pub fn shown_survives_stops<D: Disk>()
    ensures { ShownSurvivesStops D.device }
{}

/// While no pack that stands comes between, the texts that .JDT holds after a history begin those that it holds after a longer one.
///
/// It computes nothing: its contract is the law.
pub fn texts_go_on()
    ensures { TextsGoOn }
{}
