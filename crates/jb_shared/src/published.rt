//! The index of an area as what looks see.

use crate::Opening;
use crate::change::IndexChange;
use jb_index::Index;
use jb_model::Entry;
use jb_publish::{Absorbs, Published, Shower, Shown};

// An index stands for the entries after which it is the index of the area.
impl Published<Opening, Entry> for Index {
    ghost use Rattle.std.specs.Prelude.{false};
    ghost use Rattle.jb_model.specs.declared.entry.Entry.TheVariants.{Reopened};
    ghost use Rattle.jb_shared.specs.Shows.{IsShownAs};

    ghost stands = { IsShownAs };

    ghost sample = { Reopened false };
}

impl Absorbs<IndexChange> for Index {
    ghost use Rattle.jb_shared.specs.Shows.{index_changed};

    ghost changed = { index_changed };

    fn absorb(&mut self, change: &IndexChange) {
        Index::absorb(self, &change.op);
    }
}

/// The end that shows.
pub(crate) type IndexShower = Shower<Index, IndexChange, Opening, Entry>;

/// The end of one node that looks.
pub(crate) type IndexReader = Shown<Index, Opening, Entry>;
