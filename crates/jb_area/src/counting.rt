//! The packs of an area are counted.
ghost use Rattle.std.specs.Prelude.{◌≡◌};
ghost use Rattle.jb_area.specs.Commits.{packs_with};

use jb_state::Change;

/// The number of packs, once this change stands; the last number stays.
pub(crate) fn count_pack(change: &Change, packs: u64) -> u64
    ensures { result ≡ packs_with change.now packs }
{
    match change {
        Change::Packed { .. } => packs.saturating_add(1),
        _ => packs,
    }
}
