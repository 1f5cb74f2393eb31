//! How far texts may be copied.
ghost use Rattle.std.specs.Prelude.{◌≡◌, ◌≤◌};
ghost use Rattle.jb_limits.specs.declared.limits.TheConstants.{SHADOW_CEILING};
ghost use Rattle.jb_pack.specs.Reaching.{IsReach, leaves_more, most_of};

use crate::copied::{CopiedText, copy_of, left_of};
use jb_base::SHADOW_CEILING;
use jb_state::LoadedSlot;

/// Why no further text is copied.
#[derive(Clone, Copy)]
pub(crate) enum Stop {
    /// None is left.
    End,
    /// The next one is longer than what is left of the budget.
    Budget,
    /// .NDT would pass its ceiling with the next one.
    Ceiling,
}

/// How far texts may be copied: how many bytes .NDT has before, how many slots are gone through, how many bytes are left of
/// their texts, and why no further.
#[derive(Clone, Copy)]
pub(crate) struct Reach {
    pub(crate) behind: u32,
    pub(crate) slots: usize,
    pub(crate) bytes: u32,
    pub(crate) stop: Stop,
}

/// Whether a text is left behind what is reached.
pub(crate) fn leaves_more(stop: Stop) -> bool
    ensures { result ≡ leaves_more stop }
{
    !matches!(stop, Stop::End)
}

/// How many bytes a step copies at most that begins with this: none, where there is nothing to do.
pub(crate) fn most_of(first: Reach, budget: u32) -> u32
    ensures { result ≡ most_of budget first }
{
    match first.stop {
        Stop::End | Stop::Budget => first.bytes,
        Stop::Ceiling => budget,
    }
}

/// How far the texts that are left may be copied behind the `len` bytes of .NDT, within this budget.
pub(crate) fn reach_of(copies: &[CopiedText], len: u32, slots: &[LoadedSlot], budget: u32) -> Reach
    requires { len ≤ SHADOW_CEILING }
    ensures { IsReach budget slots.now (record { texts = copies.now; len = len }) result }
{
    let mut bytes = 0;
    for (place, slot) in slots.iter().enumerate() {
        let more = bytes as u64 + left_of(copy_of(copies, place), slot) as u64;
        if more > budget as u64 {
            return Reach {
                behind: len,
                slots: place,
                bytes,
                stop: Stop::Budget,
            };
        }
        if len as u64 + more > SHADOW_CEILING {
            return Reach {
                behind: len,
                slots: place,
                bytes,
                stop: Stop::Ceiling,
            };
        }
        bytes = more as u32;
    }
    Reach {
        behind: len,
        slots: slots.len(),
        bytes,
        stop: Stop::End,
    }
}
