//! One step of a packer.
ghost use Rattle.std.specs.Prelude.{◌≡◌, ◌≤◌, All, IfOk, OnOk, length, min, nat_lt};
ghost use Rattle.std.specs.Option.{ForSome};
ghost use Rattle.jb_limits.specs.declared.limits.TheConstants.{MOST_SLOTS, SHADOW_CEILING, TEXTS_CEILING};
ghost use Rattle.jb_disk.specs.Device.{FailsBy};
ghost use Rattle.jb_disk.specs.Runs.{IsAllSynced};
ghost use Rattle.jb_disk.specs.declared.file.FileId.TheVariants.{Jdt as texts_file};
ghost use Rattle.jb_state.specs.Sound.{IsSound};
ghost use Rattle.jb_pack.specs.Advance.{Copies};
ghost use Rattle.jb_state.specs.Packed.{texts_size};
ghost use Rattle.jb_pack.specs.Reaching.{IsReach, Starts, most_of};
ghost use Rattle.jb_pack.specs.Shadow.{HasCopies, IsBelowCeiling, left};
ghost use Rattle.jb_pack.specs.Touching.{TouchesShadow};
ghost use Rattle.jb_pack.specs.declared.run.TheConstants.{PACK_STEP_BYTES};

use crate::copied::{CopiedText, forget};
use crate::copying::copy_texts;
use crate::reaching::{Reach, Stop, leaves_more, reach_of};
use crate::shadow::empty_shadow;
use jb_disk::{Disk, DiskFailed, FileId};
use jb_state::{Loaded, LoadedSlot};

/// What a step comes to: how many bytes .NDT has then, and whether a text is left.
#[derive(Clone, Copy)]
pub(crate) struct StepDone {
    pub(crate) len: u32,
    pub(crate) more: bool,
}

/// Decides how far texts are copied, from how far they might be. Where .NDT would pass its ceiling it is emptied first, and
/// all copies are forgotten; what would have been copied before that is taken from the budget.
fn start<D: Disk>(
    disk: &mut D,
    copies: &mut [CopiedText],
    slots: &[LoadedSlot],
    first: Reach,
    budget: u32,
) -> Result<Reach, DiskFailed>
    requires first { IsReach budget slots.now (record { texts = copies.old; len = first.behind }) first }
    requires each { All IsBelowCeiling copies.old }
    requires has { ForSome (D.device disk.old).contents
        (HasCopies (record { texts = copies.old; len = first.behind })) }
    ensures starts { IfOk result (λ reach.
        Starts budget slots.now (record { texts = copies.old; len = first.behind })
        (record { texts = copies.new; len = reach.behind }) reach) }
    ensures most { IfOk result (λ reach. reach.bytes ≤ most_of budget first) }
    ensures has { IfOk result (λ reach. ForSome (D.device disk.new).contents
        (HasCopies (record { texts = copies.new; len = reach.behind }))) }
    ensures each { All IsBelowCeiling copies.new }

    // Only .NDT is touched.
    ensures durable { OnOk result (IsAllSynced (D.device disk.old) → IsAllSynced (D.device disk.new)) }
    ensures kept { TouchesShadow (D.device disk.old) (D.device disk.new) }
    ensures cause { FailsBy ⊥ (D.device disk.old) (D.device disk.new) result }
{
    let Stop::Ceiling = first.stop else {
        return Ok(first);
    };
    empty_shadow(disk)?;
    forget(copies);
    Ok(reach_of(copies, 0, slots, budget - first.bytes))
}

/// Copies as many of the texts that are left as the budget has bytes, which begins with this reach, and syncs .NDT behind
/// them. Where it copies none it leaves .NDT as it is, or empty.
pub(crate) fn step<D: Disk>(
    disk: &mut D,
    loaded: &Loaded,
    copies: &mut [CopiedText],
    first: Reach,
    budget: u32,
    buffer: &mut [u8],
) -> Result<StepDone, DiskFailed>
    requires sound { IsSound MOST_SLOTS loaded.now }
    requires told { ForSome (D.device disk.old).contents (λ files.
        length (files texts_file) ≡ loaded.now.texts_len) }
    requires fits { texts_size loaded.now.slots ≤ TEXTS_CEILING }
    requires first { IsReach budget loaded.now.slots
        (record { texts = copies.old; len = first.behind }) first }
    requires each { All IsBelowCeiling copies.old }
    requires slots { length copies.old ≡ length loaded.now.slots }
    requires has { ForSome (D.device disk.old).contents
        (HasCopies (record { texts = copies.old; len = first.behind })) }
    requires buffer { min PACK_STEP_BYTES (most_of budget first) ≤ length buffer.old }
    ensures copies { IfOk result (λ step.
        Copies budget loaded.now.slots (record { texts = copies.old; len = first.behind })
        (record { texts = copies.new; len = step.len })) }
    ensures has { IfOk result (λ step. ForSome (D.device disk.new).contents
        (HasCopies (record { texts = copies.new; len = step.len }))) }
    ensures more { IfOk result (λ step. step.more
        ≡ nat_lt 0 (left (record { texts = copies.new; len = step.len }) loaded.now.slots)) }
    ensures each { All IsBelowCeiling copies.new }
    ensures below { IfOk result (λ step. step.len ≤ SHADOW_CEILING) }

    // Only .NDT is touched, and it is synced then.
    ensures durable { OnOk result (IsAllSynced (D.device disk.old) → IsAllSynced (D.device disk.new)) }
    ensures kept { TouchesShadow (D.device disk.old) (D.device disk.new) }
    ensures cause { FailsBy ⊥ (D.device disk.old) (D.device disk.new) result }
{
    let reach = start(disk, copies, loaded.slots.as_slice(), first, budget)?;
    if reach.bytes == 0 {
        return Ok(StepDone {
            len: reach.behind,
            more: leaves_more(reach.stop),
        });
    }
    let end = copy_texts(disk, loaded, copies, reach, buffer)?;
    disk.sync(FileId::Ndt)?;
    Ok(StepDone {
        len: end,
        more: leaves_more(reach.stop),
    })
}
