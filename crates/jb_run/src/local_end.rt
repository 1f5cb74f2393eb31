//! How a run with one session ends.
ghost use Rattle.std.specs.Prelude.{◌≡◌};
ghost use Rattle.jb_run.specs.LocalEnding.{local_status};

use jb_session::SessionEnd;

/// How a session ended, and whether an area was in doubt when all were closed.
#[derive(Clone, Copy)]
pub struct LocalEnd {
    pub session: SessionEnd,
    pub is_doubtful: bool,
}

impl LocalEnd {
    /// The exit status of the program. An area in doubt goes first.
    pub fn status(self) -> u8
        ensures { result ≡ local_status self }
    {
        if self.is_doubtful {
            return 4;
        }
        match self.session {
            SessionEnd::Quit | SessionEnd::Hangup => 0,
            SessionEnd::LinkFault => 5,
            SessionEnd::OutOfMemory => 6,
            SessionEnd::LoginRefused | SessionEnd::Spent => 7,
        }
    }
}
