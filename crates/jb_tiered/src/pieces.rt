//! The pieces of a list, and the gap in one of them that wanders from piece to piece.
ghost use Rattle.std.specs.Prelude.{◌≡◌, ◌+◌, ◌*◌, ◌<◌, ◌≤◌, length, IfOk};
ghost use Rattle.jb_tiered.specs.Pieces.{AreCopies, AreFilled, HaveGap, IsCopy, items_of};

use jb_bytes::OutOfMemory;
use std::alloc::Global;
use std::collections::VecDeque;

/// How many elements a full piece has.
pub(crate) const PIECE: usize = 512;

/// Makes a free place in this piece: each later one that has elements takes the last one of the piece before it.
pub(crate) fn open_gap<T>(pieces: &mut Vec<VecDeque<T>>, len: usize, at: usize)
    requires filled { AreFilled len pieces.old.items }
    requires room { len < 512 * length pieces.old.items }
    requires at { at * 512 ≤ len }
    ensures gap { HaveGap (len + 1) at pieces.new.items }
    ensures items { items_of pieces.new.items ≡ items_of pieces.old.items }
    ensures length { length pieces.new.items ≡ length pieces.old.items }
{
    let mut gap = len / PIECE;
    while at < gap {
        gap -= 1;
        let Some(moved) = pieces[gap].pop_back() else {
            unreachable!()
        };
        pieces[gap + 1].push_front_reserved(moved);
    }
}

/// Fills the free place in this piece: each later one that has elements gives its first one to the piece before it.
pub(crate) fn close_gap<T>(pieces: &mut Vec<VecDeque<T>>, len: usize, at: usize)
    requires gap { HaveGap (len + 1) at pieces.old.items }
    requires within { len < 512 * length pieces.old.items }
    ensures filled { AreFilled len pieces.new.items }
    ensures items { items_of pieces.new.items ≡ items_of pieces.old.items }
    ensures length { length pieces.new.items ≡ length pieces.old.items }
{
    let mut gap = at;
    while gap < len / PIECE {
        let Some(moved) = pieces[gap + 1].pop_front() else {
            unreachable!()
        };
        pieces[gap].push_back_reserved(moved);
        gap += 1;
    }
}

/// A piece with the elements of another. They are copied as the two stretches of memory in which they lie.
fn copied_piece<T: Copy>(alloc: Global, piece: &VecDeque<T>) -> Result<VecDeque<T>, OutOfMemory>
    ensures { IfOk result (λ copy. IsCopy piece.now copy) }
{
    let (first, second) = piece.as_slices();
    let mut copy = Vec::with_capacity(alloc, PIECE)?;
    copy.extend_from_slice(first)?;
    copy.extend_from_slice(second)?;
    Ok(VecDeque::from_vec(copy))
}

/// Pieces with the elements of these.
pub(crate) fn copied_pieces<T: Copy>(
    alloc: Global,
    pieces: &Vec<VecDeque<T>>,
) -> Result<Vec<VecDeque<T>>, OutOfMemory>
    ensures { IfOk result (λ copies. AreCopies pieces.now.items copies.items) }
{
    let mut copies = Vec::with_capacity(alloc, pieces.len())?;
    for piece in pieces {
        copies.push(copied_piece(alloc, piece)?)?;
    }
    Ok(copies)
}
