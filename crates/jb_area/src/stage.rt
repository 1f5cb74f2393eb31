//! What is on its way in an open area.

use jb_held::Pending;
use jb_journal::Stopped;
use jb_model::Reply;

/// What is on its way in an open area.
#[derive(Drop)]
pub(crate) enum Stage {
    /// Nothing.
    Resting,
    /// A call is begun, which will be answered so.
    Begun { reply: Reply, pending: Pending },
    /// A call was stopped by a fault of the device; where it had a change, its commit was stopped there.
    Doubtful { stopped: Stopped, pending: Pending },
    /// A copying of texts was stopped by a fault, and .NDT may be unsynced.
    Copying,
}
