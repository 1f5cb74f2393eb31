//! How a run with many nodes ends.
ghost use Rattle.std.specs.Prelude.{◌≡◌};
ghost use Rattle.jb_run.specs.NodesEnding.{nodes_status};

/// Whether an area was in doubt when all were closed, and whether a door had failed.
#[derive(Clone, Copy)]
pub struct NodesEnd {
    pub is_doubtful: bool,
    pub door_failed: bool,
}

impl NodesEnd {
    /// The exit status of the program. An area in doubt goes first.
    pub fn status(self) -> u8
        ensures { result ≡ nodes_status self }
    {
        match (self.is_doubtful, self.door_failed) {
            (true, _) => 4,
            (false, true) => 5,
            (false, false) => 0,
        }
    }
}
