//! Ids, compared by their bytes.
ghost use Rattle.std.specs.Prelude.{◌≡◌};
ghost use Rattle.jb_state.specs.Links.{is_id};
ghost use Rattle.jb_link.specs.Ids.{hash_of, lent};

use std::hash::{FoldHasher, Hasher};

/// Whether there is an id and it has these bytes.
pub(crate) fn is_id(found: Option<&[u8]>, bytes: &[u8]) -> bool
    ensures { result ≡ is_id bytes.now (lent found.entry) }
{
    match found {
        Some(id) => id == bytes,
        None => false,
    }
}

/// A number that ids with the same bytes share, and others hardly ever.
pub(crate) fn hash_of(id: &[u8]) -> u64
    ensures { result ≡ hash_of id.now }
{
    let mut hasher = FoldHasher::default();
    hasher.write(id);
    hasher.finish()
}
