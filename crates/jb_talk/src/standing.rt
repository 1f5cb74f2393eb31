//! Whether a talk goes on.
ghost use Rattle.std.specs.Prelude.{◌≡◌};
ghost use Rattle.jb_talk.specs.Conversations.{is_going};

use jb_menu::MenuEnd;

/// Whether a talk goes on.
#[derive(Clone, Copy, PartialEq, Eq)]
pub enum Standing {
    /// It goes on with what the caller sends.
    On,
    /// It waits for an answer.
    Waits,
    /// The menus have ended it.
    Over(MenuEnd),
    /// Memory was wanting.
    Failed,
}

impl Standing {
    /// Whether it goes on with what the caller sends.
    pub fn is_on(self) -> bool
        ensures { result ≡ is_going self }
    {
        matches!(self, Standing::On)
    }
}
