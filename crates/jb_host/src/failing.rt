//! The calls that an object in memory is to fail, for a test.
ghost use Rattle.std.specs.Prelude.{IsTrue, ◌≡◌};

/// The numbers, from 1, of the calls that are to fail, and how many calls there were.
#[derive(Drop)]
pub struct Failing {
    numbers: Vec<u64>,
    calls: u64,
}

impl Failing {
    ghost use Rattle.jb_host.specs.Failing.{IsFailingNext};

    /// These calls are to fail, and none was made yet.
    pub(crate) fn new(numbers: Vec<u64>) -> Failing
        ensures told { result.numbers ≡ numbers }
        ensures none { result.calls ≡ 0 }
    {
        Failing { numbers, calls: 0 }
    }

    /// Counts a call, and says whether it is one that fails.
    pub(crate) fn fails(&mut self) -> bool
        ensures { IsFailingNext self.old → IsTrue result }
    {
        self.calls = self.calls.saturating_add(1);
        let number = self.calls;
        self.numbers.as_slice().contains(&number)
    }
}
