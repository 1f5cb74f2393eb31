//! What an answer of the system means for a link, and what of it is counted. The system is asked elsewhere.
ghost use Rattle.std.specs.Prelude.{◌≡◌, ◌≤◌, ◌<◌, ◌⊎◌, Ok, IfOk, IsErr, OnErr, OnOk};
ghost use Rattle.jb_bytes.specs.Fault.{HasCause, Rose};

use crate::link::LinkFailed;
use std::io;

/// What the answer to a read into so many bytes is for a link, which counts a refusal, and 0 as the end of input where there was room.
pub(crate) fn read_of(
    answer: io::Result<usize>,
    room: usize,
    faults: &mut u64,
    ends: &mut u64,
) -> Result<usize, LinkFailed>
    ensures ok { IfOk answer (λ n. result ≡ Ok n) }
    ensures err { OnErr answer (IsErr result) }

    // What is counted.
    ensures cause { HasCause faults.old faults.new result }
    ensures fine { OnOk result (faults.new ≡ faults.old) }
    ensures end { result ≡ Ok 0 → 0 < room → Rose ends.old ends.new }
    ensures quiet { (result ≡ Ok 0 → 0 < room → ⊥) → ends.new ≡ ends.old }
    ensures later { ends.old ≤ ends.new }
{
    let Ok(n) = answer else {
        *faults = faults.saturating_add(1);
        return Err(LinkFailed);
    };
    if n == 0 && room > 0 {
        *ends = ends.saturating_add(1);
    }
    Ok(n)
}

/// What the answer to a write of so many bytes is for a link, which counts a refusal. None that is taken of some is one, too.
pub(crate) fn write_of(
    answer: io::Result<usize>,
    len: usize,
    faults: &mut u64,
    unsent: &mut u64,
) -> Result<usize, LinkFailed>
    ensures ok { IfOk answer (λ n. (0 < n) ⊎ (len ≡ 0) → result ≡ Ok n) }
    ensures taken { IfOk result (λ n. answer ≡ Ok n) }
    ensures some { IfOk result (λ n. 0 < len → 0 < n) }

    // What is counted.
    ensures cause { HasCause faults.old faults.new result }
    ensures unsent { HasCause unsent.old unsent.new result }
    ensures fine { OnOk result (faults.new ≡ faults.old) }
    ensures quiet { OnOk result (unsent.new ≡ unsent.old) }
{
    if let Ok(n) = answer {
        if n > 0 || len == 0 {
            return Ok(n);
        }
    }
    *faults = faults.saturating_add(1);
    *unsent = unsent.saturating_add(1);
    Err(LinkFailed)
}
