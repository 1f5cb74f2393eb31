//! What lies behind the turn.

use crate::change::IndexChange;
use crate::published::IndexShower;
use jb_area::OpenArea;
use jb_disk::Disk;

/// An open area, with the end that shows what looks see of it. It is not `Drop`, since that end is not.
pub(crate) struct ShownArea<D: Disk> {
    pub(crate) area: OpenArea<D>,
    pub(crate) shower: IndexShower,
    /// While the area is in doubt: what the call that was stopped changes in the index, if its change stands.
    pub(crate) doubted: IndexChange,
}
