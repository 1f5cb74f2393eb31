//! The versions of the journal.
ghost use Rattle.std.specs.Prelude.{◌≡◌};

/// A version of the journal: how its record is spelled, which limits that has, and which byte opens its gate. The second
/// byte of the journal tells it.
#[derive(Clone, Copy, Debug, PartialEq, Eq)]
pub enum Version {
    One,
    Two,
}

impl Version {
    ghost use Rattle.jb_disk.specs.Gate.{version_number, version_by};

    /// The version of a journal with this second byte.
    pub fn told_by(second: u8) -> Version
        ensures { result ≡ version_by second }
    {
        if second == 2 {
            Version::Two
        } else {
            Version::One
        }
    }

    /// Its number, which is also the byte that opens the gate of its journal.
    pub fn number(self) -> u8
        ensures { result ≡ version_number self }
    {
        match self {
            Version::One => 1,
            Version::Two => 2,
        }
    }
}
