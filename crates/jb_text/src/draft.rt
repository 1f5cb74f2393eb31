//! A line of a list while it is put together, in a room of its own.
ghost use Rattle.std.specs.Prelude.{◌≡◌, ◌≤◌, ◌+◌, ◌++◌, length, replicate};
ghost use Rattle.jb_text.specs.Shown.{shown};

use crate::writing::show;
use std::marker::Model;

/// How many bytes a draft holds at most.
pub(crate) const DRAFT_BYTES: usize = 128;

/// Puts in place of each byte what is shown for it.
fn show_each(bytes: &mut [u8])
    ensures { bytes.new ≡ shown bytes.old }
{
    for byte in bytes.iter_mut() {
        *byte = show(*byte);
    }
}

/// A line while it is put together. Contracts see the list of its bytes.
#[derive(Drop)]
pub(crate) struct LineDraft {
    room: [u8; DRAFT_BYTES],
    len: usize,
}

impl Model for LineDraft {
    ghost use Rattle.std.specs.Prelude.{List, ℕ, ◌≤◌, take};

    ghost Value = { List ℕ };

    ghost view = { λ d. take d.len d.room };

    ghost invariant = { λ d. d.len ≤ 128 };
}

impl LineDraft {
    /// So many spaces.
    pub(crate) fn spaces(count: usize) -> LineDraft
        requires { count ≤ 128 }
        ensures { result ≡ replicate count 32 }
    {
        LineDraft {
            room: [b' '; DRAFT_BYTES],
            len: count,
        }
    }

    /// Puts these bytes behind the others.
    pub(crate) fn put(&mut self, more: &[u8])
        requires { length self.old + length more.now ≤ 128 }
        ensures { self.new ≡ self.old ++ more.now }
    {
        let end = self.len + more.len();
        self.room[self.len..end].copy_from_slice(more);
        self.len = end;
    }

    /// Puts in place of each byte what is shown for it. The whole room is gone over: so a compiler does many bytes at once.
    pub(crate) fn show(&mut self)
        ensures { self.new ≡ shown self.old }
    {
        show_each(&mut self.room);
    }

    /// The bytes.
    pub(crate) fn as_slice(&self) -> &[u8]
        ensures { result.now ≡ self.now }
    {
        &self.room[..self.len]
    }
}
