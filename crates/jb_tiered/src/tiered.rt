//! The list in pieces.
ghost use Rattle.std.specs.Prelude.{◌≡◌, ◌+◌, ◌<◌, ◌≤◌, ◌++◌, ◌∷◌, [], Bool, IfOk, OnOk, OnErr, length, insert, remove, slice_get, slice_index_or, slice_set, true, false};
ghost use Rattle.std.specs.Fn.{ComputesKey};
ghost use Rattle.std.specs.List.Sorted.{IsPartitionPoint, IsPartitionedBy};

use crate::pieces::{PIECE, close_gap, copied_pieces, open_gap};
use jb_bytes::OutOfMemory;
use std::alloc::Global;
use std::collections::VecDeque;
use std::marker::Model;
use std::ops::Index;

/// The most pieces of a list: more than a machine has memory for.
const MOST_PIECES: usize = 1 << 40;

/// A list in pieces of equal length.
#[derive(Drop)]
pub struct Tiered<T> {
    pieces: Vec<VecDeque<T>>,
    len: usize,
    alloc: Global,
}

impl<T> Model for Tiered<T> {
    ghost use Rattle.jb_tiered.specs.Tiered.{TieredList, tiered_code};

    ghost Value = { TieredList T };

    ghost coded = { tiered_code T.code };

    ghost use Rattle.jb_tiered.specs.Inside.{IsInPieces, list_of};

    ghost view = { list_of };

    ghost invariant = { IsInPieces };
}

impl<T: Copy> Tiered<T> {
    /// A list without an element and without room.
    pub fn new(alloc: Global) -> Tiered<T>
        ensures items { result.items ≡ [] }
        ensures room { result.room ≡ 0 }
    {
        Tiered {
            pieces: Vec::new(alloc),
            len: 0,
            alloc,
        }
    }

    /// A list of these elements. Its cost is that of a copy.
    pub fn copy(alloc: Global, items: &[T]) -> Result<Tiered<T>, OutOfMemory>
        ensures { IfOk result (λ list. list.items ≡ items.now) }
    {
        let mut list = Tiered::new(alloc);
        list.reserve(items.len())?;
        for item in items {
            list.push(*item);
        }
        Ok(list)
    }

    /// A list of the same elements with room for so many more. Its cost is that of a copy of memory.
    pub fn copied(&self, alloc: Global, more: usize) -> Result<Tiered<T>, OutOfMemory>
        ensures items { IfOk result (λ copy. copy.items ≡ self.now.items) }
        ensures room { IfOk result (λ copy. more ≤ copy.room) }
    {
        let mut copy = Tiered {
            pieces: copied_pieces(alloc, &self.pieces)?,
            len: self.len,
            alloc,
        };
        copy.reserve(more)?;
        Ok(copy)
    }

    /// How many elements there are.
    pub fn len(&self) -> usize
        ensures { result ≡ length self.now.items }
    {
        self.len
    }

    /// How many more elements fit without memory.
    pub fn room(&self) -> usize
        ensures { result ≡ self.now.room }
    {
        PIECE * self.pieces.len() - self.len
    }

    /// The element at this place, where the list is so long.
    pub fn get(&self, at: usize) -> Option<T>
        ensures { result ≡ slice_get self.now.items at }
    {
        if at < self.len { Some(self[at]) } else { None }
    }

    /// How many elements from the first on are such that the closure says `true`, as it does of none behind them. It is
    /// called of log n elements.
    pub fn partition_point<P: FnMut(&T) -> bool>(&self, mut pred: P) -> usize
        requires { P.IsAlwaysCallable pred }
        ensures bound { result ≤ length self.now.items }
        ensures partitioned { (p : T → Bool) → ComputesKey P.FnMut p pred
            → IsPartitionedBy p self.now.items
            → IsPartitionPoint (λ y. p y ≡ true) (λ y. p y ≡ false) self.now.items result }
    {
        let mut low = 0;
        let mut high = self.len;
        while low < high {
            let mid = low + (high - low) / 2;
            if pred(&self[mid]) {
                low = mid + 1;
            } else {
                high = mid;
            }
        }
        low
    }

    /// Makes room for so many elements more. Where there is, it takes no memory; for want of memory the elements stay.
    pub fn reserve(&mut self, more: usize) -> Result<(), OutOfMemory>
        ensures items { self.new.items ≡ self.old.items }
        ensures room { self.old.room ≤ self.new.room }
        ensures ok { OnOk result (more ≤ self.new.room) }
        ensures err { OnErr result (self.old.room < more) }
    {
        while self.room() < more {
            self.add_piece()?;
        }
        Ok(())
    }

    /// Makes room for one piece more.
    fn add_piece(&mut self) -> Result<(), OutOfMemory>
        ensures items { self.new.items ≡ self.old.items }
        ensures room { self.old.room ≤ self.new.room }
        ensures ok { OnOk result (self.new.room ≡ self.old.room + 512) }
    {
        if self.pieces.len() >= MOST_PIECES {
            return Err(OutOfMemory);
        }
        let piece = VecDeque::with_capacity(self.alloc, PIECE)?;
        self.pieces.push(piece)?;
        Ok(())
    }

    /// Puts an element at this place, before those from there on. It takes no memory.
    pub fn insert(&mut self, at: usize, item: T)
        requires at { at ≤ length self.old.items }
        requires room { 0 < self.old.room }
        ensures items { self.new.items ≡ insert self.old.items at item }
        ensures room { self.new.room + 1 ≡ self.old.room }
    {
        open_gap(&mut self.pieces, self.len, at / PIECE);
        let Ok(()) = self.pieces[at / PIECE].insert(at % PIECE, item) else {
            unreachable!()
        };
        self.len += 1;
    }

    /// Puts an element behind the last. It takes no memory, and no other moves.
    pub fn push(&mut self, item: T)
        requires { 0 < self.old.room }
        ensures items { self.new.items ≡ self.old.items ++ item ∷ [] }
        ensures room { self.new.room + 1 ≡ self.old.room }
    {
        self.pieces[self.len / PIECE].push_back_reserved(item);
        self.len += 1;
    }

    /// Puts another element in the place of one. No other moves.
    pub fn set(&mut self, at: usize, item: T)
        requires { at < length self.old.items }
        ensures items { self.new.items ≡ slice_set self.old.items at item }
        ensures room { self.new.room ≡ self.old.room }
    {
        let piece = &mut self.pieces[at / PIECE];
        piece[at % PIECE] = item;
    }

    /// Takes the element out that stands at this place. It takes no memory and gives none back: the room grows.
    pub fn remove(&mut self, at: usize) -> T
        requires { at < length self.old.items }
        ensures value { result ≡ slice_index_or self.old.items at result }
        ensures items { self.new.items ≡ remove self.old.items at }
        ensures room { self.new.room ≡ self.old.room + 1 }
    {
        let Some(item) = self.pieces[at / PIECE].remove(at % PIECE) else {
            unreachable!()
        };
        self.len -= 1;
        close_gap(&mut self.pieces, self.len, at / PIECE);
        item
    }
}

impl<T: Copy> Index<usize> for Tiered<T> {
    type Output = T;

    ghost can_index = { λ list at. at < length list.items };

    ghost index_gives = { λ list at item. item ≡ slice_index_or list.items at item };

    fn index(&self, at: usize) -> &T {
        &self.pieces[at / PIECE][at % PIECE]
    }
}
