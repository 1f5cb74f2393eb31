//! A change of an area, committed and settled.
ghost use Rattle.std.specs.Prelude.{◌≡◌, ◌≤◌, List, ℕ, None, Option, IfOk, IfErr, IsTrue, OnErr, OnOk};
ghost use Rattle.std.specs.Option.{ForSome};
ghost use Rattle.jb_disk.specs.Device.{TellsAlike, CountsFaults, is_disk_fault};
ghost use Rattle.jb_disk.specs.Runs.{LeavesOnly};
ghost use Rattle.jb_journal.specs.Commit.{AgreeButJournal};
ghost use Rattle.jb_journal.specs.declared.stopped.Stopped.TheVariants.{Late};
ghost use Rattle.jb_redo.specs.Changes.{changed};
ghost use Rattle.jb_state.specs.declared.loaded.Loaded.{Loaded};
ghost use Rattle.jb_pack.specs.Shadow.{Shadow};
ghost use Rattle.jb_decide.specs.Coming.{Coming, IsChange};
ghost use Rattle.jb_area.specs.Area.{redo_in};
ghost use Rattle.jb_area.specs.Commits.{IsAnsweredAs, IsRecorded, IsSettledAs, IsSettledWith, IsStoppedAs, MayCommit, MaySettle, StandsFirm, StaysShutEarly, StopsAgain};
ghost use Rattle.jb_area.specs.Holds.{OpensToEither};

use jb_disk::{Disk, Redo};
use jb_journal::{Stopped, commit, settle};

/// The redo of a call: one of its own, or the small one.
pub(crate) fn in_use<'a>(large: &'a Option<Redo>, small: &'a Redo) -> &'a Redo
    ensures { result.now ≡ redo_in large.now small.now }
{
    match large {
        Some(large) => large,
        None => small,
    }
}

/// Commits a change of the area that the files hold, with this number.
pub(crate) fn commit_change<D: Disk>(disk: &mut D, redo: &Redo, number: u64) -> Result<(), Stopped>
    requires may { MayCommit redo.now (D.device disk.old) }
    ensures done { OnOk result ((from : Loaded) (texts : List ℕ) (copies : Option Shadow)
        (coming : Coming) → IsSettledWith from texts copies (D.device disk.old)
        → IsChange (D.device disk.old).contents redo.now from texts copies coming
        → IsSettledAs coming.to coming.texts (D.device disk.new)) }
    ensures made { OnOk result (ForSome (D.device disk.old).contents (λ was.
        ForSome (D.device disk.new).contents (λ now.
        AgreeButJournal now (changed redo.now was)))) }
    ensures recorded { OnOk result (ForSome (D.device disk.new).contents (IsRecorded number redo.now)) }
    ensures doubt { IfErr result (λ stopped.
        (from : Loaded) (texts : List ℕ) (copies : Option Shadow) (coming : Coming)
        → IsSettledWith from texts copies (D.device disk.old)
        → IsChange (D.device disk.old).contents redo.now from texts copies coming
        → IsStoppedAs stopped redo.now from texts copies (D.device disk.new)) }
    ensures early { IfErr result (λ stopped.
        StaysShutEarly stopped (D.device disk.old) (D.device disk.new)) }
    ensures faults { CountsFaults is_disk_fault (D.device disk.old) (D.device disk.new) result }
    ensures crash { (from : Loaded) (texts : List ℕ) (copies : Option Shadow) (coming : Coming)
        → IsSettledWith from texts copies (D.device disk.old)
        → IsChange (D.device disk.old).contents redo.now from texts copies coming
        → ForSome (D.device disk.old).contents (λ _.
        LeavesOnly (D.device disk.old) (D.device disk.new) (OpensToEither from texts coming)) }
    ensures alike { TellsAlike (D.device disk.old) (D.device disk.new) }
{
    commit(disk, redo, number)
}

/// Settles whether a change stands whose commit was stopped.
pub(crate) fn settle_change<D: Disk>(
    disk: &mut D,
    redo: &Redo,
    stopped: Stopped,
) -> Result<bool, Stopped>
    requires may { MaySettle stopped redo.now (D.device disk.old) }
    ensures answer { IfOk result (λ stands.
        (from : Loaded) (texts : List ℕ) (copies : Option Shadow) (coming : Coming)
        → IsStoppedAs stopped redo.now from texts copies (D.device disk.old)
        → IsChange (D.device disk.old).contents redo.now from texts copies coming
        → IsAnsweredAs stands from texts coming (D.device disk.new)) }
    ensures late { IfOk result (λ stands. stopped ≡ Late → IsTrue stands) }
    ensures again { IfErr result (λ again. StopsAgain stopped again (D.device disk.old) (D.device disk.new)) }
    ensures still { IfErr result (λ again.
        (from : Loaded) (texts : List ℕ) (copies : Option Shadow) (coming : Coming)
        → IsStoppedAs stopped redo.now from texts copies (D.device disk.old)
        → IsChange (D.device disk.old).contents redo.now from texts copies coming
        → IsStoppedAs again redo.now from texts copies (D.device disk.new)) }
    ensures faults { CountsFaults is_disk_fault (D.device disk.old) (D.device disk.new) result }
    ensures crash { (from : Loaded) (texts : List ℕ) (copies : Option Shadow) (coming : Coming)
        → IsStoppedAs stopped redo.now from texts copies (D.device disk.old)
        → IsChange (D.device disk.old).contents redo.now from texts copies coming
        → ForSome (D.device disk.old).contents (λ _.
        LeavesOnly (D.device disk.old) (D.device disk.new) (OpensToEither from texts coming)) }
    ensures firm { (from : Loaded) (texts : List ℕ) (copies : Option Shadow) (coming : Coming)
        → IsStoppedAs stopped redo.now from texts copies (D.device disk.old)
        → IsChange (D.device disk.old).contents redo.now from texts copies coming
        → StandsFirm stopped coming (D.device disk.old) (D.device disk.new) }
    ensures alike { TellsAlike (D.device disk.old) (D.device disk.new) }
{
    settle(disk, redo, stopped)
}
