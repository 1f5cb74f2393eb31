//! A run of bytes of a file.
ghost use Rattle.std.specs.Bool.{MatchBool};
ghost use Rattle.jb_image.specs.Extents.{AreDisjoint, ShareByte};

/// The `len` bytes of a file from place `start` on, counted in bytes from 0; none where `len` is 0.
#[derive(Clone, Copy)]
pub(crate) struct Extent {
    pub start: u64,
    pub len: u64,
}

impl Extent {
    /// Whether some byte belongs to both. Ends are compared by lengths, so that no sum can overflow.
    pub fn shares_byte_with(self, other: Extent) -> bool
        ensures { MatchBool result (ShareByte self other) (AreDisjoint self other) }
    {
        if self.start <= other.start {
            other.len > 0 && other.start - self.start < self.len
        } else {
            self.len > 0 && self.start - other.start < other.len
        }
    }
}
