//! What a command is answered with, and what it changes.
ghost use Rattle.std.specs.Prelude.{◌≡◌};
ghost use Rattle.jb_state.specs.declared.change.Change.TheVariants.{Nothing};

use jb_model::Reply;
use jb_state::Change;

/// What a command is answered with, and what it changes.
#[derive(Drop)]
pub(crate) struct Outcome {
    pub reply: Reply,
    pub change: Change,
}

impl Outcome {
    /// A reply that changes nothing.
    pub(crate) fn unchanged(reply: Reply) -> Outcome
        ensures reply { result.reply ≡ reply }
        ensures change { result.change ≡ Nothing }
    {
        Outcome {
            reply,
            change: Change::Nothing,
        }
    }
}
