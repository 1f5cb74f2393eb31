//! The two bytes of Telnet that a connection has to know, since the system takes the second of them out of what it gives.
ghost use Rattle.std.specs.Prelude.{◌≡◌, ◌≤◌, ◌<◌, ◌∷◌, [], length, slice_index, take, drop};
ghost use Rattle.jb_host.specs.Telnet.{waits_behind, with_iac};

/// What stands before each command of Telnet.
pub(crate) const IAC: u8 = 255;
/// The command that is the mark of a Synch.
pub(crate) const DATA_MARK: u8 = 242;

/// Whether bytes end in an IAC that is not half of a doubled one, where those before them did or not.
pub(crate) fn ends_in_iac(bytes: &[u8], did: bool) -> bool
    ensures { result ≡ waits_behind did bytes.now }
{
    let mut does = did;
    for byte in bytes {
        does = *byte == IAC && !does;
    }
    does
}

/// Puts the mark before the byte that was read.
pub(crate) fn put_mark(into: &mut [u8])
    requires room { 2 ≤ length into.old }
    ensures mark { take 2 into.new ≡ 242 ∷ slice_index into.old 0 ∷ [] }
    ensures rest { drop 2 into.new ≡ drop 2 into.old }
{
    into[1] = into[0];
    into[0] = DATA_MARK;
}

/// Puts the mark that the system has dropped before an IAC and the mark of that one, and leaves what is behind them.
pub(crate) fn put_dropped_mark(into: &mut [u8])
    requires room { 3 ≤ length into.old }
    ensures marks { take 3 into.new ≡ 242 ∷ 255 ∷ 242 ∷ [] }
    ensures rest { drop 3 into.new ≡ drop 3 into.old }
{
    into[0] = DATA_MARK;
    into[1] = IAC;
    into[2] = DATA_MARK;
}

/// Puts the IAC that the system has taken out before a mark that so many bytes begin with, from the second place on; else moves these to
/// the first place. Answers how many bytes there are then.
pub(crate) fn put_iac(into: &mut [u8], count: usize) -> usize
    requires room { count < length into.old }
    ensures within { result ≤ length into.new }
    ensures bytes { take result into.new ≡ with_iac (take count (drop 1 into.old)) }
{
    if count > 0 && into[1] == DATA_MARK {
        into[0] = IAC;
        return count + 1;
    }
    into.copy_within(1..count + 1, 0);
    count
}
