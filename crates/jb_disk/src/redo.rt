//! A change of files that is to be done as a whole.
ghost use Rattle.std.specs.Prelude.{◌≡◌, ◌+◌, ◌<◌, ◌≤◌, ◌^◌, [], ◌∷◌, ◌++◌, Some, length, sum_by, slice_get, OnOk};
ghost use Rattle.std.specs.Option.{option_map};
ghost use Rattle.jb_disk.specs.declared.piece.Piece.TheVariants.{Bytes, Copy};
ghost use Rattle.jb_disk.specs.RedoView.{piece_head, bytes_of, held_by, IsPlaced, HasRoom, Spends, SameLists};

use crate::{FileId, Length, PieceHead};
use jb_bytes::OutOfMemory;
use std::alloc::Global;
use std::marker::Model;

/// New lengths and pieces, with spare room for more. The bytes of all pieces stand in one buffer, one after another, so
/// that a change made anew in the same room takes no memory. Each piece ends below 2^63 in each of its files.
pub struct Redo {
    lengths: Vec<Length>,
    kept: Vec<Kept>,
    buffer: Vec<u8>,
}

// Whoever lets go of one does so in one call.
impl Drop for Redo {
    fn drop(self) {
        let Redo {
            lengths: _lengths,
            kept: _kept,
            buffer: _buffer,
        } = self;
    }
}

/// A piece, and where its bytes begin in the buffer.
#[derive(Clone, Copy)]
pub(crate) struct Kept {
    head: PieceHead,
    start: usize,
}

impl Model for Redo {
    ghost use Rattle.jb_disk.specs.RedoView.{RedoView};

    ghost Value = { RedoView };

    ghost use Rattle.jb_disk.specs.Kept.{view_of_redo, IsFilled};

    ghost view = { view_of_redo };

    ghost invariant = { IsFilled };
}

impl Redo {
    /// A change of nothing, with no room.
    pub fn new(alloc: Global) -> Redo
        ensures lengths { result.lengths ≡ [] }
        ensures pieces { result.pieces ≡ [] }
    {
        Redo {
            lengths: Vec::new(alloc),
            kept: Vec::new(alloc),
            buffer: Vec::new(alloc),
        }
    }

    /// Makes room for so many lengths, pieces and bytes of pieces more. A change has fewer than 2^32 pieces: room for more
    /// is refused as memory is.
    pub fn reserve(&mut self, lengths: u32, pieces: u32, bytes: u64) -> Result<(), OutOfMemory>
        ensures ok { OnOk result (HasRoom lengths pieces bytes self.new) }
        ensures same { SameLists self.old self.new }
        ensures kept { Spends 0 0 0 self.old self.new }
    {
        if pieces > u32::MAX - self.kept.len() as u32 {
            return Err(OutOfMemory);
        }
        self.lengths.reserve(lengths as usize)?;
        self.kept.reserve(pieces as usize)?;
        self.buffer.reserve(bytes as usize)?;
        Ok(())
    }

    /// Takes out all that it holds. The room stays.
    pub fn clear(&mut self)
        ensures lengths { self.new.lengths ≡ [] }
        ensures pieces { self.new.pieces ≡ [] }

        // What it held is room now.
        ensures spare_lengths { self.new.spare_lengths ≡ self.old.spare_lengths + length self.old.lengths }
        ensures spare_pieces { self.new.spare_pieces ≡ self.old.spare_pieces + length self.old.pieces }
        ensures spare_bytes { self.new.spare_bytes ≡ self.old.spare_bytes + held_by self.old.pieces }
    {
        self.lengths.clear();
        self.kept.clear();
        self.buffer.clear();
    }

    /// A new length behind the others.
    pub fn put_len(&mut self, entry: Length)
        requires { 0 < self.old.spare_lengths }
        ensures lengths { self.new.lengths ≡ self.old.lengths ++ entry ∷ [] }
        ensures pieces { self.new.pieces ≡ self.old.pieces }
        ensures room { Spends 1 0 0 self.old self.new }
    {
        let Ok(()) = self.lengths.push(entry) else {
            unreachable!()
        };
    }

    /// A piece with its bytes behind the others.
    pub fn put_bytes(&mut self, file: FileId, at: u64, bytes: &[u8])
        requires some { 0 < self.old.spare_pieces }
        requires fits { length bytes.now ≤ self.old.spare_bytes }
        requires low { at + length bytes.now < 2 ^ 63 }

        // The piece is the last one, and costs no more room than its own.
        ensures lengths { self.new.lengths ≡ self.old.lengths }
        ensures pieces { self.new.pieces ≡ self.old.pieces ++ Bytes file at bytes.now ∷ [] }
        ensures room { Spends 0 1 (length bytes.now) self.old self.new }
    {
        let head = PieceHead {
            copy: false,
            from: file,
            from_at: 0,
            to: file,
            to_at: at,
            len: bytes.len() as u64,
        };
        let start = self.buffer.len();
        let Ok(()) = self.buffer.extend_from_slice(bytes) else {
            unreachable!()
        };
        let Ok(()) = self.kept.push(Kept { head, start }) else {
            unreachable!()
        };
    }

    /// A piece that is copied from a file, behind the others.
    pub fn put_copy(&mut self, from: FileId, from_at: u64, to: FileId, to_at: u64, len: u64)
        requires some { 0 < self.old.spare_pieces }
        requires source { from_at + len < 2 ^ 63 }
        requires target { to_at + len < 2 ^ 63 }
        ensures lengths { self.new.lengths ≡ self.old.lengths }
        ensures pieces { self.new.pieces ≡ self.old.pieces ++ Copy from from_at to to_at len ∷ [] }
        ensures room { Spends 0 1 0 self.old self.new }
    {
        let head = PieceHead {
            copy: true,
            from,
            from_at,
            to,
            to_at,
            len,
        };
        let start = self.buffer.len();
        let Ok(()) = self.kept.push(Kept { head, start }) else {
            unreachable!()
        };
    }

    /// The new lengths in order.
    pub fn lengths(&self) -> &[Length]
        ensures { result.now ≡ self.now.lengths }
    {
        &self.lengths
    }

    /// How many pieces there are.
    pub fn pieces(&self) -> u32
        ensures { result ≡ length self.now.pieces }
    {
        self.kept.len() as u32
    }

    /// A piece without its bytes, by its number from 0.
    pub fn head(&self, k: u32) -> PieceHead
        requires { k < length self.now.pieces }
        ensures found { Some result ≡ option_map piece_head (slice_get self.now.pieces k) }
        ensures placed { IsPlaced result }
    {
        self.kept[k as usize].head
    }

    /// The bytes of a piece, by its number from 0. A copy has none.
    pub fn bytes(&self, k: u32) -> &[u8]
        requires { k < length self.now.pieces }
        ensures { Some result.now ≡ option_map bytes_of (slice_get self.now.pieces k) }
    {
        let kept = &self.kept[k as usize];
        if kept.head.copy {
            return &self.buffer[..0];
        }
        &self.buffer[kept.start..kept.start + kept.head.len as usize]
    }
}
