//! The open area, and what becomes of a call that is begun.

use crate::committing::{commit_change, in_use, settle_change};
use crate::copying::{clear_copies, keep_after};
use crate::counting::count_pack;
use crate::places::{drop_both, drop_pending, drop_stage, put_redo, put_stage};
use crate::stage::Stage;
use jb_base::AreaRules;
use jb_disk::{Disk, Redo};
use jb_held::HeldArea;
use jb_journal::Stopped;
use jb_link::Replies;
use jb_model::Reply;
use jb_pack::Packer;
use jb_state::{Change, Loaded};
use std::mem;

/// An area whose files are open for changes.
#[derive(Drop)]
pub struct OpenArea<D: Disk> {
    pub(crate) disk: D,
    pub(crate) rules: AreaRules,
    pub(crate) held: HeldArea,
    /// The change of a reading, a kill or a mark.
    pub(crate) redo: Redo,
    /// The number of the last commit, 0 before the first.
    pub(crate) commits: u64,
    /// The number of packs since it was opened; the last number stands for all more.
    pub(crate) packs: u64,
    /// The change of the post, the edit, the relink or the pack that is begun or in doubt.
    pub(crate) large: Option<Redo>,
    /// What is copied of the texts for a pack.
    pub(crate) packer: Option<Packer>,
    pub(crate) stage: Stage,
}

impl<D: Disk> OpenArea<D> {
    ghost use Rattle.std.specs.Prelude.{◌≡◌, if◌then◌else◌, List, [], ℕ, Option, None, Some, IfOk, IfErr, IsTrue, OnOk, OnErr, false};
    ghost use Rattle.std.specs.Option.{ForSome};
    ghost use Rattle.jb_disk.specs.Device.{TellsAlike, CountsFaults, is_disk_fault};
    ghost use Rattle.jb_disk.specs.Runs.{LeavesOnly};
    ghost use Rattle.jb_disk.specs.declared.file.FileId.TheVariants.{Ndt as shadow_file};
    ghost use Rattle.jb_link.specs.Index.{IsIndexOf};
    ghost use Rattle.jb_state.specs.Change.{Fits, after};
    ghost use Rattle.jb_model.specs.declared.reply.Reply.{Reply};
    ghost use Rattle.jb_area.specs.Calls.{EndsCall};
    ghost use Rattle.jb_area.specs.Commits.{StandsFirm, StandsLate, StaysShutEarly, StopsAgain};
    ghost use Rattle.jb_journal.specs.declared.stopped.Stopped.TheVariants.{Late};
    ghost use Rattle.jb_decide.specs.Coming.{Coming};
    ghost use Rattle.jb_area.specs.Area.{commits_of, copied_of, device_of, loaded_of, packs_of, packs_to, rules_of, small_redo_of, DoubtOpens, HasBegun, HasDoubt, IsBegun, IsDoubtful, IsHalfCopied, IsResting, RestsAt, SettlesAt, stopped_of};

    /// The area without its texts; while a call is begun or in doubt, as it was before that call.
    pub fn loaded(&self) -> &Loaded
        ensures { result.now ≡ loaded_of self.now }
    {
        self.held.loaded()
    }

    /// The index of the replies in that area.
    pub fn replies(&self) -> &Replies
        ensures { IsIndexOf result.now (loaded_of self.now) }
    {
        self.held.replies()
    }

    /// The rules of the area.
    pub fn rules(&self) -> &AreaRules
        ensures { result.now ≡ rules_of self.now }
    {
        &self.rules
    }

    /// The number of packs that stand since the area was opened, those that [`reopen`](OpenArea::reopen) found to stand among
    /// them. At 2^64 - 1 the number stays, and so tells nothing more.
    pub fn packs(&self) -> u64
        ensures { result ≡ packs_of self.now }
    {
        self.packs
    }

    /// Commits the change of the call that is begun, and answers the reply that [`coming`](OpenArea::coming) lends. The commit
    /// has the next number, also where it is stopped; at 2^64 - 1 the number stays. Takes no memory, and gives back what the
    /// call took for its change, and after a pack the copies of the texts. Where it is stopped by a fault of the device, the
    /// area is in doubt, and keeps the change until that is settled.
    pub fn finish(&mut self) -> Result<Reply, Stopped>
        requires begun { HasBegun D.device self.old }

        // Done as it was decided, or stopped by a fault, and then with a change that may stand or not.
        ensures ends { EndsCall D.device is_disk_fault self.old self.new result }

        // It keeps where it was stopped. After a late stop the change stands, whenever a crash comes; after an early one a crash
        // at each moment may leave the gate closed, so that the change does not stand.
        ensures place { IfErr result (λ stopped. stopped_of self.new ≡ stopped) }
        ensures late { IfErr result (λ stopped. (texts : List ℕ) (decided : Reply)
            (coming : Coming) → IsBegun D.device self.old texts decided coming
            → StandsLate stopped coming (device_of D.device self.new)) }
        ensures early { IfErr result (λ stopped. StaysShutEarly stopped
            (device_of D.device self.old) (device_of D.device self.new)) }
    {
        let stage = mem::replace(&mut self.stage, Stage::Resting);
        let Stage::Begun { reply, pending } = stage else {
            drop_stage(stage);
            unreachable!()
        };
        if let Change::Nothing = pending.change {
            drop_pending(pending);
            put_redo(&mut self.large, None);
            return Ok(reply);
        }
        self.commits = self.commits.saturating_add(1);
        match commit_change(
            &mut self.disk,
            in_use(&self.large, &self.redo),
            self.commits,
        ) {
            Ok(()) => {
                put_redo(&mut self.large, None);
                keep_after(&pending.change, &mut self.packer);
                self.packs = count_pack(&pending.change, self.packs);
                self.held.apply(pending);
                Ok(reply)
            }
            Err(stopped) => {
                put_stage(&mut self.stage, Stage::Doubtful { stopped, pending });
                Err(stopped)
            }
        }
    }

    /// The reply that the call that is begun will have.
    pub fn coming(&self) -> &Reply
        requires begun { HasBegun D.device self.now }
        ensures { (texts : List ℕ) (decided : Reply) (coming : Coming)
            → IsBegun D.device self.now texts decided coming → result.now ≡ decided }
    {
        let Stage::Begun { reply, pending: _ } = &self.stage else {
            unreachable!()
        };
        reply
    }

    /// The change of the call that is begun.
    pub fn change(&self) -> &Change
        requires begun { HasBegun D.device self.now }
        ensures becomes { (texts : List ℕ) (decided : Reply) (coming : Coming)
            → IsBegun D.device self.now texts decided coming
            → coming.to ≡ after result.now (loaded_of self.now) }
        ensures fits { Fits (rules_of self.now).slots result.now (loaded_of self.now) }
    {
        let Stage::Begun { reply: _, pending } = &self.stage else {
            unreachable!()
        };
        &pending.change
    }

    /// Drops the call that is begun, and the memory of its change. Nothing has changed.
    pub fn abandon(&mut self)
        requires begun { HasBegun D.device self.old }
        ensures rests { (texts : List ℕ) (decided : Reply) (coming : Coming)
            → IsBegun D.device self.old texts decided coming
            → RestsAt D.device self.new texts (loaded_of self.old) }
        ensures device { device_of D.device self.new ≡ device_of D.device self.old }
        ensures copies { copied_of self.new ≡ copied_of self.old }
        ensures rules { rules_of self.new ≡ rules_of self.old }
        ensures commits { commits_of self.new ≡ commits_of self.old }
        ensures packs { packs_of self.new ≡ packs_of self.old }
        ensures room { small_redo_of self.new ≡ small_redo_of self.old }
    {
        put_redo(&mut self.large, None);
        put_stage(&mut self.stage, Stage::Resting);
    }

    /// Whether a call was stopped by a fault of the device and is not settled. While it is so, what the disk reads opens to the
    /// area before the change of that call or to the one after it.
    pub fn in_doubt(&self) -> bool
        ensures doubt { HasDoubt D.device self.now → IsTrue result }
        ensures opens { (texts : List ℕ) (coming : Option Coming) → IsDoubtful D.device self.now texts coming
            → ForSome (device_of D.device self.now).contents (DoubtOpens (loaded_of self.now) texts coming) }
        ensures rests { (texts : List ℕ) → IsResting D.device self.now texts → result ≡ false }
        ensures begun { HasBegun D.device self.now → result ≡ false }
    {
        matches!(self.stage, Stage::Doubtful { .. } | Stage::Copying)
    }

    /// Settles the call that was stopped, and answers whether its change stands; a call that had no change answers false.
    /// Takes no memory, and gives back what the call took for its change, and what was copied of the texts. After a copying of
    /// texts it empties .NDT and syncs it, two calls of the device. Where it is stopped again, the area stays in doubt.
    pub fn reopen(&mut self) -> Result<bool, Stopped>
        requires doubt { HasDoubt D.device self.old }

        // Settled as it answers.
        ensures settled { IfOk result (λ stands. (texts : List ℕ) (coming : Option Coming)
            → IsDoubtful D.device self.old texts coming
            → SettlesAt D.device stands (loaded_of self.old) texts coming self.new) }
        ensures stands { IfOk result (λ stands. stopped_of self.old ≡ Late → IsTrue stands) }
        ensures dropped { OnOk result (copied_of self.new ≡ None) }
        ensures emptied { OnOk result ((texts : List ℕ) → IsHalfCopied D.device self.old texts
            → ForSome (device_of D.device self.new).contents (λ files. files shadow_file ≡ [])) }

        // A pack that is found to stand is counted.
        ensures packs { IfOk result (λ stands. packs_of self.new
            ≡ (if stands then packs_to self.old else packs_of self.old)) }

        // Stopped: only by a fault, and in doubt as before.
        ensures still { OnErr result ((texts : List ℕ) (coming : Option Coming)
            → IsDoubtful D.device self.old texts coming
            → IsDoubtful D.device self.new texts coming) }
        ensures opens { OnErr result ((texts : List ℕ) (coming : Option Coming)
            → IsDoubtful D.device self.old texts coming
            → ForSome (device_of D.device self.new).contents (DoubtOpens (loaded_of self.old) texts coming)) }
        ensures loaded { OnErr result (loaded_of self.new ≡ loaded_of self.old) }
        ensures unpacked { OnErr result ((packs_of self.new ≡ packs_of self.old)
            × (packs_to self.new ≡ packs_to self.old)) }

        // It keeps where it was stopped again: late behind a late stop, and then the change stands, whenever a crash comes.
        ensures place { IfErr result (λ again. stopped_of self.new ≡ again) }
        ensures again { IfErr result (λ again. StopsAgain (stopped_of self.old) again
            (device_of D.device self.old) (device_of D.device self.new)) }
        ensures late { IfErr result (λ again. (texts : List ℕ) (coming : Coming)
            → IsDoubtful D.device self.old texts (Some coming)
            → StandsLate again coming (device_of D.device self.new)) }

        // The count of faults rises exactly where it is stopped, and the disk tells as before.
        ensures faults { CountsFaults is_disk_fault (device_of D.device self.old)
            (device_of D.device self.new) result }
        ensures alike { TellsAlike (device_of D.device self.old) (device_of D.device self.new) }

        // A crash at any moment leaves what the doubt allows, and after a late stop what opens to the area to come.
        ensures crash { (texts : List ℕ) (coming : Option Coming) → IsDoubtful D.device self.old texts coming
            → ForSome (device_of D.device self.old).contents (λ _.
            LeavesOnly (device_of D.device self.old) (device_of D.device self.new)
            (DoubtOpens (loaded_of self.old) texts coming)) }
        ensures firm { (texts : List ℕ) (coming : Coming) → IsDoubtful D.device self.old texts (Some coming)
            → StandsFirm (stopped_of self.old) coming (device_of D.device self.old)
            (device_of D.device self.new) }
        ensures rules { rules_of self.new ≡ rules_of self.old }
        ensures commits { commits_of self.new ≡ commits_of self.old }
        ensures room { small_redo_of self.new ≡ small_redo_of self.old }
    {
        if let Stage::Copying = self.stage {
            return match clear_copies(&mut self.disk) {
                Ok(()) => {
                    drop_both(&mut self.large, &mut self.packer);
                    put_stage(&mut self.stage, Stage::Resting);
                    let stands = false;
                    Ok(stands)
                }
                Err(again) => Err(again),
            };
        }
        let stage = mem::replace(&mut self.stage, Stage::Resting);
        let Stage::Doubtful { stopped, pending } = stage else {
            drop_stage(stage);
            unreachable!()
        };
        if let Change::Nothing = pending.change {
            drop_pending(pending);
            drop_both(&mut self.large, &mut self.packer);
            return Ok(false);
        }
        match settle_change(&mut self.disk, in_use(&self.large, &self.redo), stopped) {
            Ok(true) => {
                drop_both(&mut self.large, &mut self.packer);
                self.packs = count_pack(&pending.change, self.packs);
                self.held.apply(pending);
                Ok(true)
            }
            Ok(false) => {
                drop_pending(pending);
                drop_both(&mut self.large, &mut self.packer);
                Ok(false)
            }
            Err(again) => {
                put_stage(
                    &mut self.stage,
                    Stage::Doubtful {
                        stopped: again,
                        pending,
                    },
                );
                Err(again)
            }
        }
    }

    /// The disk with the area's files.
    pub fn close(self) -> D
        ensures { device_of D.device self ≡ D.device result }
    {
        let OpenArea {
            disk,
            rules: _,
            held: _,
            redo: _,
            commits: _,
            packs: _,
            large: _,
            packer: _,
            stage,
        } = self;
        drop_stage(stage);
        disk
    }
}
