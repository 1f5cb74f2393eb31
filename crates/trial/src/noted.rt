//! The nodes of a trial, what each is to do, and what it was told.
ghost use Rattle.std.specs.Prelude.{◌<◌, ◌≤◌, ◌+◌};
ghost use Rattle.jb_limits.specs.declared.limits.TheConstants.{MOST_NODES};

use jb_base::MOST_NODES;
use jb_model::Reply;
use jb_state::Figures;
use trial_rows::Act;

/// The most nodes of a trial: those of a board, and one that tends it.
pub(crate) const NODES: u32 = MOST_NODES + 1;

/// What the nodes of a trial do.
#[derive(Clone, Copy)]
pub(crate) enum Plan {
    /// So many posts by each, with calls about them behind each; whether it packs there or kills.
    Crowd(u32, bool),
    /// So many posts by the first, and so many looks by each other.
    Watch(u32, u32),
}

impl Plan {
    /// How many nodes there are.
    pub(crate) fn nodes(self) -> u32
        ensures { (0 < result) × (result ≤ MOST_NODES + 1) }
    {
        match self {
            Plan::Crowd(..) => NODES,
            Plan::Watch(..) => 9,
        }
    }
}

/// What a node did.
#[derive(Clone, Copy)]
pub(crate) enum Deed {
    Asked(Act, u32),
    /// Counted what is unread, and looked at the figures.
    Looked,
}

/// What it was told.
#[derive(Debug, Drop)]
pub(crate) enum Told {
    Replied(Reply),
    /// The device stopped the call.
    Stopped,
    Saw { figures: Figures, unread: u32 },
}

/// A deed of a node and what it was told, and where it stands among those of all nodes.
#[derive(Drop)]
pub(crate) struct Noted {
    pub node: u32,
    pub deed: Deed,
    pub order: u64,
    pub told: Told,
}
