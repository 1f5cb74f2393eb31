//! Texts are copied into .NDT part by part, and then the area is packed out of it.
ghost use Rattle.std.specs.Prelude.{◌≡◌, ◌≤◌, List, ℕ, [], IfErr, IfOk, Ok, OnOk, false, length, nat_lt};
ghost use Rattle.std.specs.Option.{ForSome};
ghost use Rattle.jb_limits.specs.declared.limits.TheConstants.{MOST_SLOTS, TEXTS_CEILING};
ghost use Rattle.jb_redo.specs.Changes.{KeepsRoom};
ghost use Rattle.jb_disk.specs.Device.{CountsFaults};
ghost use Rattle.jb_disk.specs.Runs.{IsAllSynced};
ghost use Rattle.jb_disk.specs.declared.file.FileId.TheVariants.{Jdt as texts_file};
ghost use Rattle.jb_image.specs.Stands.{Loads};
ghost use Rattle.jb_state.specs.Plan.{plan_of};
ghost use Rattle.jb_state.specs.LiveSlots.{linkables};
ghost use Rattle.jb_state.specs.Sound.{IsSound};
ghost use Rattle.jb_state.specs.State.{state_of};
ghost use Rattle.jb_pack.specs.Advance.{Copies};
ghost use Rattle.jb_pack.specs.Copying.{is_pack_fault};
ghost use Rattle.jb_pack.specs.Finish.{FinishesPack};
ghost use Rattle.jb_state.specs.Packed.{texts_size};
ghost use Rattle.jb_pack.specs.Plan.{AnswersPack};
ghost use Rattle.jb_pack.specs.Shadow.{HasCopies, left, nothing_copied};
ghost use Rattle.jb_pack.specs.Touching.{IsUntouched, StaysUnlessFault, TouchesShadow};

use crate::copied::{CopiedText, NOT_COPIED};
use crate::finishing::put_copied_pack;
use crate::planning::packing_of;
use crate::reaching::{leaves_more, most_of, reach_of};
use crate::run::PACK_STEP_BYTES;
use crate::shadow::empty_shadow;
use crate::sizes::sizes_of;
use crate::stepping::step;
use crate::{PackError, Packing};
use jb_base::OutOfMemory;
use jb_disk::{Disk, Redo};
use jb_state::{Links, Loaded};
use std::alloc::Global;
use std::marker::Model;

/// So many bytes, each 0.
fn zeros(alloc: Global, len: usize) -> Result<Vec<u8>, OutOfMemory>
    ensures { IfOk result (λ bytes. length bytes.items ≡ len) }
{
    Ok(vec![in alloc; 0; len]?)
}

/// Texts that are copied into .NDT in parts, for a pack whose record then names them there. Between two parts the area may
/// change: a text that stands at another place since is copied once more, and one that was killed stays where it is and is
/// not packed. Contracts see the copies, slot by slot, and the length of .NDT. It holds 12 bytes of memory a slot.
///
/// After a fault of the device it is of no more use, since .NDT may hold something else than it says.
#[derive(Drop)]
pub struct Packer {
    copies: Vec<CopiedText>,
    len: u32,
}

impl Model for Packer {
    ghost use Rattle.std.specs.Prelude.{All, ◌≤◌};
    ghost use Rattle.jb_disk.specs.Device.{CountsFaults};
    ghost use Rattle.jb_limits.specs.declared.limits.TheConstants.{SHADOW_CEILING};
    ghost use Rattle.jb_pack.specs.Shadow.{Shadow, IsBelowCeiling};

    ghost Value = { Shadow };

    ghost view = { λ p. record { texts = p.copies.items; len = p.len } };

    ghost invariant = { λ p. All IsBelowCeiling p.copies.items × (p.len ≤ SHADOW_CEILING) };
}

impl Packer {
    /// Begins with an empty .NDT, which is synced: two calls of the device. It takes memory for the copies of the slots that
    /// the area has, 12 bytes each, before them.
    pub fn begin<D: Disk>(alloc: Global, disk: &mut D, loaded: &Loaded) -> Result<Packer, PackError>
        ensures begun { IfOk result (λ packer. packer ≡ nothing_copied) }
        ensures has { OnOk result (ForSome (D.device disk.new).contents (HasCopies nothing_copied)) }

        // Only .NDT is touched, and it is synced then.
        ensures durable { OnOk result (IsAllSynced (D.device disk.old) → IsAllSynced (D.device disk.new)) }
        ensures kept { TouchesShadow (D.device disk.old) (D.device disk.new) }
        ensures unchanged { IfErr result (IsUntouched (D.device disk.old) (D.device disk.new)) }
        ensures faults { CountsFaults is_pack_fault (D.device disk.old) (D.device disk.new) result }
    {
        let copies = Vec::with_capacity(alloc, loaded.slots.as_slice().len())?;
        empty_shadow(disk)?;
        Ok(Packer { copies, len: 0 })
    }

    /// Copies some of the texts that are left: whole ones, in the order of their numbers, as long as together they have no
    /// more bytes than the budget, and syncs .NDT. Answers whether a text is left.
    ///
    /// Where .NDT would pass its ceiling it is emptied before that, all copies are forgotten, and it goes on with the first
    /// text and with what is left of the budget. With a budget of at least `PACK_STEP_BYTES`, which no text exceeds, each call
    /// that does not empty .NDT copies one at least where one is left.
    ///
    /// Texts that stand one behind another in .JDT are one part, of at most `PACK_STEP_BYTES`, which is read and written at
    /// once: three calls of the device for each part, one sync behind them, and two calls more where .NDT is emptied.
    /// Where it copies none and empties nothing, as with nothing left, it makes no call and takes no memory. It reads and
    /// writes each byte that it copies once, no more of them than the budget, and its time is linear in these and in the
    /// slots. It takes memory for one part, no more bytes than it copies (or than the budget, where .NDT is emptied) nor than
    /// `PACK_STEP_BYTES`, which it gives back, and 12 bytes for each slot that is new, before it calls the device.
    pub fn some<D: Disk>(
        &mut self,
        alloc: Global,
        disk: &mut D,
        loaded: &Loaded,
        budget: u32,
    ) -> Result<bool, PackError>
        requires sound { IsSound MOST_SLOTS loaded.now }
        requires told { ForSome (D.device disk.old).contents (λ files.
            length (files texts_file) ≡ loaded.now.texts_len) }
        requires fits { texts_size loaded.now.slots ≤ TEXTS_CEILING }

        // What was copied was only kept since, in .JDT and in .NDT.
        requires has { ForSome (D.device disk.old).contents (HasCopies self.old) }

        // What is copied then, and whether a text is left.
        ensures copies { OnOk result (Copies budget loaded.now.slots self.old self.new) }
        ensures has { OnOk result (ForSome (D.device disk.new).contents (HasCopies self.new)) }
        ensures more { IfOk result (λ more. more ≡ nat_lt 0 (left self.new loaded.now.slots)) }

        // With nothing left nothing is done.
        ensures idle { left self.old loaded.now.slots ≡ 0
            → (result ≡ Ok false) × (self.new ≡ self.old) × (D.device disk.new ≡ D.device disk.old) }

        // Only .NDT is touched, and it is synced then; without memory nothing is.
        ensures durable { OnOk result (IsAllSynced (D.device disk.old) → IsAllSynced (D.device disk.new)) }
        ensures kept { TouchesShadow (D.device disk.old) (D.device disk.new) }
        ensures unchanged { IfErr result
            (StaysUnlessFault self.old self.new (D.device disk.old) (D.device disk.new)) }
        ensures faults { CountsFaults is_pack_fault (D.device disk.old) (D.device disk.new) result }
    {
        let slots = loaded.slots.as_slice();
        let first = reach_of(self.copies.as_slice(), self.len, slots, budget);
        let most = most_of(first, budget);
        if most == 0 {
            return Ok(leaves_more(first.stop));
        }
        let mut buffer = zeros(alloc, most.min(PACK_STEP_BYTES) as usize)?;
        self.copies.resize(slots.len(), NOT_COPIED)?;
        let done = step(
            disk,
            loaded,
            self.copies.as_mut_slice(),
            first,
            budget,
            buffer.as_mut_slice(),
        )?;
        self.len = done.len;
        Ok(done.more)
    }

    /// Puts the change that packs the area into an empty redo, as [`plan`](crate::plan) does, but with its texts as copies
    /// of .NDT, so that the record is short. No text may be left. It answers as `plan` does and calls no device: the disk is
    /// named for what it has.
    ///
    /// Its time is linear in the bytes of the headers and in the slots. The redo takes memory for the new .JHR and .JDX once
    /// and for two pieces a slot, and none for the texts. After an error it is no change.
    pub fn finish<D: Disk>(
        &self,
        alloc: Global,
        disk: &D,
        loaded: &Loaded,
        links: &[Links],
        redo: &mut Redo,
    ) -> Result<Packing, OutOfMemory>
        requires sound { IsSound MOST_SLOTS loaded.now }
        requires links { (texts : List ℕ) → links.now ≡ plan_of (linkables texts loaded.now) }
        requires all { left self.now loaded.now.slots ≡ 0 }
        requires no_lengths { redo.old.lengths ≡ [] }
        requires no_pieces { redo.old.pieces ≡ [] }

        // The disk has the area, and the copies as they were made.
        requires holds { ForSome (D.device disk.now).contents (Loads loaded.now) }
        requires has { ForSome (D.device disk.now).contents (HasCopies self.now) }

        // The answer of the definition, whatever the texts are, and the change that makes it so.
        ensures answer { IfOk result (λ packing. (texts : List ℕ) → length texts ≡ loaded.now.texts_len
            → AnswersPack (state_of texts loaded.now) packing) }
        ensures finishes { IfOk result (FinishesPack self.now loaded.now redo.old redo.new) }
        ensures room { KeepsRoom redo.old redo.new }
    {
        let sizes = sizes_of(loaded.slots.as_slice());
        let packing = packing_of(loaded, sizes);
        let Packing::Fits { base, .. } = packing else {
            return Ok(packing);
        };
        let copies = self.copies.as_slice();
        put_copied_pack(alloc, redo, copies, loaded, links, base, sizes)?;
        Ok(packing)
    }
}
