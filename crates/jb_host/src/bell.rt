//! The trait of a bell.
ghost use Rattle.std.specs.Prelude.{◌≡◌};
ghost use Rattle.jb_host.specs.Rings.{Rings, Tolls};

/// What a bell answers.
#[derive(Clone, Copy, Debug, PartialEq, Eq)]
pub enum Ring {
    /// The area with this number, from 1, is to be packed.
    Pack(u32),
    /// It rings no more.
    Shut,
}

/// What says when which area is to be packed. `next` may wait.
pub trait Bell {
    /// Whether it is shut, how many rings are left, and where it tells them the areas to come.
    ghost rings: { Self → Rings };

    /// Waits for the next ring, or says that the bell is shut, which comes only where it has no ring left.
    fn next(&mut self) -> Ring
        ensures { Tolls (rings self.old) result (rings self.new) };

    /// Tells the operator a line on a pack, where there is a way to. It may be lost, and nothing rests on it.
    fn note(&mut self, _line: &str)
        ensures { rings self.new ≡ rings self.old }
    {}
}
