//! Names of people, compared without regard to the case of `A` to `Z`.
ghost use Rattle.std.specs.Prelude.{◌≡◌, ◌↔◌, IfOk, IsTrue};
ghost use Rattle.jb_bytes.specs.Name.{SameName};

use crate::{Bytes, OutOfMemory};
use std::alloc::Global;
use std::marker::Model;

/// A name. Contracts see the list of its bytes.
#[derive(Debug, Drop)]
pub struct Name {
    bytes: Bytes,
}

impl Model for Name {
    ghost use Rattle.std.specs.Prelude.{List, ℕ};

    ghost Value = { List ℕ };

    ghost view = { λ n. n.bytes };
}

impl Name {
    /// A copy of these bytes.
    pub fn copy(alloc: Global, from: &[u8]) -> Result<Name, OutOfMemory>
        ensures { IfOk result (λ copy. copy ≡ from.now) }
    {
        let bytes = Bytes::copy(alloc, from)?;
        Ok(Name { bytes })
    }

    /// The bytes, as they were given.
    pub fn as_slice(&self) -> &[u8]
        ensures { result.now ≡ self.now }
    {
        self.bytes.as_slice()
    }

    /// Whether the two are one name: the same bytes, with `A` to `Z` taken as `a` to `z`.
    pub fn same(&self, other: &Name) -> bool
        ensures { IsTrue result ↔ SameName self.now other.now }
    {
        self.as_slice().eq_ignore_ascii_case(other.as_slice())
    }
}
