//! The count of what came back and had failed.
ghost use Rattle.jb_host.specs.Desk.{CountsFailed};

/// Counts one more where what came back has failed so often.
pub(crate) fn count_failed(failed: &mut u64, faults: u64)
    ensures { CountsFailed faults failed.old failed.new }
{
    if faults > 0 {
        *failed = failed.saturating_add(1);
    }
}
