//! Parts of a file that are read at once.
ghost use Rattle.std.specs.Prelude.{◌≡◌, ◌≢◌, ◌+◌, ◌<◌, ◌^◌, ℕ, IfNone, IfSome};
ghost use Rattle.jb_pack.specs.Runs.{IsJoined, IsRunPlaced, IsRun};

use jb_base::MOST_TEXT_BYTES;

/// Bytes of the texts that one step of a pack copies at most, and of its buffer. A text fits into one step.
pub const PACK_STEP_BYTES: u32 = 1_048_576;

const _: () = prove!(MOST_TEXT_BYTES <= PACK_STEP_BYTES);

/// A part of a file that is read at once: where it begins, and how many bytes it has.
#[derive(Clone, Copy)]
pub(crate) struct Run {
    pub(crate) at: u32,
    pub(crate) len: u32,
}

/// The part with another one behind it, where that stands right behind it and both are not too long. The place of an empty
/// one is that of no byte.
pub(crate) fn joined(run: Run, next: Run) -> Option<Run>
    requires { run.at + run.len < 2 ^ 32 }
    ensures joined { IfSome result (IsJoined run next) }
    ensures run { (end : ℕ) → IsRun end run → IsRunPlaced end next → IfSome result (IsRun end) }
    ensures other { IfNone result (next.len ≢ 0) }
{
    if next.len == 0 {
        return Some(run);
    }
    if run.len == 0 {
        return Some(next);
    }
    if next.at != run.at + run.len || next.len as u64 + run.len as u64 > PACK_STEP_BYTES as u64 {
        return None;
    }
    Some(Run {
        at: run.at,
        len: run.len + next.len,
    })
}
