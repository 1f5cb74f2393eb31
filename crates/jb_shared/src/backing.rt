//! The copier of a backup, and behind how many packs of the area it has copied texts.
ghost use Rattle.std.specs.Prelude.{◌≡◌, ◌⊎◌, ◌≤◌, ℕ, Err, IfErr, IfOk, List, MatchBool, OnOk, Some, length, map};
ghost use Rattle.std.specs.Option.{ForSome};
ghost use Rattle.jb_area.specs.Area.{HasDoubt, device_of, loaded_of, packs_of};
ghost use Rattle.jb_area.specs.Calls.{HasRest};
ghost use Rattle.jb_area.specs.Commits.{last_count};
ghost use Rattle.jb_backup.specs.Answers.{AnswersCopy, IsFault, is_target_fault};
ghost use Rattle.jb_backup.specs.Begin.{BeginsTiny};
ghost use Rattle.jb_backup.specs.Target.{AreEmpty, HasBegun, HasFront, IsBackupOf, IsSame, IsUnsigned, backed_up};
ghost use Rattle.jb_disk.specs.Device.{CountsFaults, TellsAlike};
ghost use Rattle.jb_disk.specs.Runs.{LeavesOnly, Shows};
ghost use Rattle.jb_limits.specs.declared.limits.TheConstants.{MOST_SLOTS};
ghost use Rattle.jb_state.specs.Live.{live_count};
ghost use Rattle.jb_state.specs.State.{slot_state};
ghost use Rattle.jb_shared.specs.Backing.{CopiesPart, GoesOn, IsRenewed, MayNotBegin};
ghost use Rattle.jb_shared.specs.Reading.{WasRead};

use jb_area::OpenArea;
use jb_backup::{BackupError, Copier};
use jb_disk::Disk;
use jb_state::LoadedSlot;
use std::alloc::Global;

/// How many of these slots have a live message.
fn count_live(slots: &[LoadedSlot]) -> u32
    requires { length slots.now ≤ MOST_SLOTS }
    ensures { (texts : List ℕ) → result ≡ live_count (map (slot_state texts) slots.now) }
{
    slots
        .iter()
        .filter(|slot| matches!(slot, LoadedSlot::Live(_)))
        .count() as u32
}

/// Whether texts that were copied behind so many packs are still a beginning of those behind so many. The last number tells nothing.
fn goes_on(before: Option<u64>, packs: u64) -> bool
    ensures { MatchBool result (GoesOn before packs) (before ≡ Some packs → last_count ≤ packs) }
{
    match before {
        Some(count) => count == packs && packs < u64::MAX,
        None => false,
    }
}

/// A copier whose target is begun.
#[derive(Drop)]
pub(crate) struct Backing {
    copier: Copier,
    /// How often the area had been packed when texts were copied last; none before the first time.
    packs: Option<u64>,
}

impl Backing {
    /// Takes the memory of a backup, and begins its target.
    pub(crate) fn begin<E: Disk>(alloc: Global, onto: &mut E) -> Result<Backing, BackupError>
        ensures begun { IfOk result (λ backing. (backing.copier ≡ 0) × HasBegun 0 (E.device onto.new)) }
        ensures empty { OnOk result (ForSome (E.device onto.old).contents AreEmpty) }
        ensures refused { IfErr result (MayNotBegin (E.device onto.old) (E.device onto.new)) }
        ensures crash { BeginsTiny (E.device onto.old) (E.device onto.new) }
        ensures faults { CountsFaults is_target_fault (E.device onto.old) (E.device onto.new) result }
        ensures alike { TellsAlike (E.device onto.old) (E.device onto.new) }
    {
        let mut copier = Copier::new(alloc)?;
        copier.begin(onto)?;
        Ok(Backing {
            copier,
            packs: None,
        })
    }

    /// Gives up what is copied, but where it goes on behind so many packs.
    fn renew(&mut self, packs: u64)
        ensures packs { self.new.packs ≡ Some packs }
        ensures renewed { IsRenewed self.old packs self.new.copier }
    {
        if !goes_on(self.packs, packs) {
            self.copier.again();
        }
        self.packs = Some(packs);
    }

    /// Copies the next part of the texts of the area below an end, and answers whether some are left. An area in doubt is passed over.
    pub(crate) fn copy_some<D: Disk, E: Disk>(
        &mut self,
        area: &mut OpenArea<D>,
        onto: &mut E,
        end: u64,
    ) -> Result<bool, BackupError>
        requires begun { HasBegun self.old.copier (E.device onto.old) }
        ensures begun { OnOk result (HasBegun self.new.copier (E.device onto.new)) }

        // At rest it has copied a part; what was copied before a pack is given up.
        ensures packs { HasRest D.device area.old → OnOk result (self.new.packs ≡ Some (packs_of area.old)) }
        ensures copies { HasRest D.device area.old → IfOk result (λ more.
            ForSome (device_of D.device area.old).contents (λ files. CopiesPart end (packs_of area.old) files
            self.old self.new (E.device onto.old).contents (E.device onto.new).contents more)) }
        ensures passed { HasDoubt D.device area.old → (self.new ≡ self.old) × (onto.new ≡ onto.old) }

        // The area is only read. What a crash leaves, and which disk fails.
        ensures read { WasRead D.device area.old area.new }
        ensures crash { LeavesOnly (E.device onto.old) (E.device onto.new) IsUnsigned }
        ensures answer { AnswersCopy (device_of D.device area.old) (device_of D.device area.new) (E.device onto.old)
            (E.device onto.new) result }
    {
        if area.in_doubt() {
            return Ok(true);
        }
        self.renew(area.packs());
        self.copier.some(area, onto, end)
    }

    /// Copies the rest of the area, and signs the target. It answers how many messages of the area are live.
    pub(crate) fn finish<D: Disk, E: Disk>(
        &mut self,
        area: &mut OpenArea<D>,
        onto: &mut E,
    ) -> Result<u32, BackupError>
        requires stands { HasRest D.device area.old ⊎ HasDoubt D.device area.old }
        requires begun { HasBegun self.old.copier (E.device onto.old) }
        requires front { HasRest D.device area.old → ForSome (device_of D.device area.old).contents (λ files.
            GoesOn self.old.packs (packs_of area.old)
            → HasFront self.old.copier files (E.device onto.old).contents) }

        // At rest the backup is made, or a disk failed; in doubt nothing is done.
        ensures live { HasRest D.device area.old → IfOk result (λ live. (texts : List ℕ)
            → live ≡ live_count (map (slot_state texts) (loaded_of area.old).slots)) }
        ensures whole { HasRest D.device area.old → OnOk result (ForSome (device_of D.device area.old).contents
            (λ files. Shows (IsSame (backed_up files)) (E.device onto.new))) }
        ensures crash { HasRest D.device area.old → ForSome (device_of D.device area.old).contents (λ files.
            LeavesOnly (E.device onto.old) (E.device onto.new) (IsBackupOf (backed_up files))) }
        ensures fault { HasRest D.device area.old → IfErr result IsFault }
        ensures doubt { HasDoubt D.device area.old
            → (result ≡ Err BackupError.InDoubt) × (onto.new ≡ onto.old) }

        // The area is only read. Which disk fails.
        ensures read { WasRead D.device area.old area.new }
        ensures faults { CountsFaults is_target_fault (E.device onto.old) (E.device onto.new) result }
        ensures alike { TellsAlike (E.device onto.old) (E.device onto.new) }
    {
        if area.in_doubt() {
            return Err(BackupError::InDoubt);
        }
        self.renew(area.packs());
        let live = count_live(area.loaded().slots.as_slice());
        self.copier.finish(area, onto)?;
        Ok(live)
    }
}
