//! The texts that are left are copied into .NDT.
ghost use Rattle.std.specs.Prelude.{◌≡◌, ◌+◌, ◌≤◌, All, IfOk, length, min};
ghost use Rattle.std.specs.Option.{ForSome};
ghost use Rattle.jb_limits.specs.declared.limits.TheConstants.{SHADOW_CEILING};
ghost use Rattle.jb_disk.specs.Device.{FailsBy};
ghost use Rattle.jb_disk.specs.declared.file.FileId.TheVariants.{Jdt as texts_file};
ghost use Rattle.jb_state.specs.Sound.{IsSlotWithin};
ghost use Rattle.jb_pack.specs.Advance.{CopiesFirst};
ghost use Rattle.jb_pack.specs.Shadow.{HasCopies, IsBelowCeiling, left_first};
ghost use Rattle.jb_pack.specs.Touching.{TouchesShadow};
ghost use Rattle.jb_pack.specs.declared.run.TheConstants.{PACK_STEP_BYTES};

use crate::copied::{CopiedText, left_of};
use crate::reaching::Reach;
use crate::run::{Run, joined};
use crate::shadow::append;
use jb_disk::{Disk, DiskFailed};
use jb_state::{Loaded, LoadedSlot};

/// Copies what is left of the texts of the first slots behind what .NDT has, as far as it reaches, and answers how many bytes
/// .NDT has then. Texts that stand one behind another in .JDT are copied at once, up to `PACK_STEP_BYTES`.
pub(crate) fn copy_texts<D: Disk>(
    disk: &mut D,
    loaded: &Loaded,
    copies: &mut [CopiedText],
    reach: Reach,
    buffer: &mut [u8],
) -> Result<u32, DiskFailed>
    requires told { ForSome (D.device disk.old).contents (λ files.
        length (files texts_file) ≡ loaded.now.texts_len) }
    requires within { All (IsSlotWithin loaded.now.headers_len loaded.now.texts_len) loaded.now.slots }
    requires has { ForSome (D.device disk.old).contents
        (HasCopies (record { texts = copies.old; len = reach.behind })) }
    requires slots { length copies.old ≡ length loaded.now.slots }
    requires each { All IsBelowCeiling copies.old }
    requires some { reach.slots ≤ length loaded.now.slots }
    requires room { reach.behind + left_first reach.slots
        (record { texts = copies.old; len = reach.behind }) loaded.now.slots ≤ SHADOW_CEILING }
    requires buffer { min PACK_STEP_BYTES reach.bytes ≤ length buffer.old }
    requires bytes { reach.bytes ≡ left_first reach.slots
        (record { texts = copies.old; len = reach.behind }) loaded.now.slots }

    // What is copied then.
    ensures copies { IfOk result (λ end.
        CopiesFirst reach.slots loaded.now.slots (record { texts = copies.old; len = reach.behind })
        (record { texts = copies.new; len = end })) }
    ensures has { IfOk result (λ end. ForSome (D.device disk.new).contents
        (HasCopies (record { texts = copies.new; len = end }))) }
    ensures each { All IsBelowCeiling copies.new }

    // Only .NDT is touched.
    ensures kept { TouchesShadow (D.device disk.old) (D.device disk.new) }
    ensures cause { FailsBy ⊥ (D.device disk.old) (D.device disk.new) result }
{
    let mut run = Run { at: 0, len: 0 };
    let mut end = reach.behind;
    let mut next = reach.behind;
    let slots = &loaded.slots.as_slice()[..reach.slots];
    for (place, slot) in slots.iter().enumerate() {
        let LoadedSlot::Live(message) = slot else {
            continue;
        };
        if left_of(copies[place], slot) == 0 {
            continue;
        }
        let text = Run {
            at: message.text_at,
            len: message.text_len,
        };
        copies[place] = CopiedText {
            from: text.at,
            len: text.len,
            at: next,
        };
        next += text.len;
        if let Some(more) = joined(run, text) {
            run = more;
            continue;
        }
        end = append(disk, run, end, buffer)?;
        run = text;
    }
    end = append(disk, run, end, buffer)?;
    Ok(end)
}
