//! The trait of a link.
ghost use Rattle.std.specs.Prelude.{◌≡◌, ◌<◌, ◌≤◌, ℕ, List, [], Option, Ok, IsErr, IfOk, OnOk, OnErr, length, take};
ghost use Rattle.std.specs.Option.{ForSome};
ghost use Rattle.jb_bytes.specs.Fault.{HasCause, Rose};
ghost use Rattle.jb_host.specs.Wire.{Wire, Takes, Sends};

/// The link did not do it; its count of faults rose.
#[derive(Clone, Copy, Debug, PartialEq, Eq)]
pub struct LinkFailed;

/// What a session knows of its caller, and tells its link.
#[derive(Clone, Copy, Debug, PartialEq, Eq)]
pub enum Learned {
    /// The caller is a reader of news, who does not log in.
    IsReader,
    /// Somebody has logged in.
    LoggedIn,
    /// A log-in is refused; the caller has not been told yet.
    Refused,
}

/// A way for bytes in both directions. `read` and `write` may wait for the other side.
pub trait Link {
    /// Its counts, and where it tells them the bytes to come and those sent.
    ghost wire: { Self → Wire };

    /// The call that comes next is one that it was told to fail, as a link in memory is for a test.
    ghost fails_next: { Self → Type 0 } = { λ _. ⊥ };

    /// Takes some bytes, at most as many as the slice holds, and answers how many. Into a slice that is not empty it gives
    /// 0 only at the end of input.
    fn read(&mut self, into: &mut [u8]) -> Result<usize, LinkFailed>
        ensures within { IfOk result (λ n. n ≤ length into.old) }
        ensures found { IfOk result (λ n.
            Takes (wire self.old).to_come (take n into.new) (wire self.new).to_come) }
        ensures err { OnErr result ((wire self.new).to_come ≡ (wire self.old).to_come) }
        ensures end { result ≡ Ok 0 → 0 < length into.old → ForSome (wire self.old).to_come
            (λ bytes. bytes ≡ []) × Rose (wire self.old).ends (wire self.new).ends }

        // What stays, and the cause of a refusal.
        ensures ends { (wire self.old).ends ≤ (wire self.new).ends }
        ensures quiet { (result ≡ Ok 0 → 0 < length into.old → ⊥)
            → (wire self.new).ends ≡ (wire self.old).ends }
        ensures sent { (wire self.new).sent ≡ (wire self.old).sent }
        ensures unsent { (wire self.new).unsent ≡ (wire self.old).unsent }
        ensures fine { OnOk result ((wire self.new).faults ≡ (wire self.old).faults) }
        ensures listed { fails_next self.old → IsErr result }
        ensures cause { HasCause (wire self.old).faults (wire self.new).faults result };

    /// Sends some of the bytes, and answers how many: at least one of a slice that is not empty.
    fn write(&mut self, bytes: &[u8]) -> Result<usize, LinkFailed>
        ensures within { IfOk result (λ n. n ≤ length bytes.now) }
        ensures some { IfOk result (λ n. 0 < length bytes.now → 0 < n) }
        ensures sent { IfOk result (λ n. Sends (wire self.old).sent (take n bytes.now) (wire self.new).sent) }
        ensures err { OnErr result ((wire self.new).sent ≡ (wire self.old).sent) }

        // What stays, and the cause of a refusal.
        ensures to_come { (wire self.new).to_come ≡ (wire self.old).to_come }
        ensures ends { (wire self.new).ends ≡ (wire self.old).ends }
        ensures unsent { HasCause (wire self.old).unsent (wire self.new).unsent result }
        ensures quiet { OnOk result ((wire self.new).unsent ≡ (wire self.old).unsent) }
        ensures fine { OnOk result ((wire self.new).faults ≡ (wire self.old).faults) }
        ensures listed { fails_next self.old → IsErr result }
        ensures cause { HasCause (wire self.old).faults (wire self.new).faults result };

    /// Tells the operator a line on this link, where there is a way to. It may be lost, and nothing rests on it.
    fn note(&mut self, _line: &str)
        ensures { wire self.new ≡ wire self.old }
    {}

    /// Learns something of its caller, by which it may wait longer or answer later. No byte comes or goes by it.
    fn learn(&mut self, _what: Learned)
        ensures { wire self.new ≡ wire self.old }
    {}

    /// Where its last read failed because nothing had come in time: how many seconds a caller may be silent.
    fn silence(&self) -> Option<u64> {
        None
    }
}
