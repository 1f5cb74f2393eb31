//! Bytes that follow each other in a file are gathered, and written by one call.
ghost use Rattle.std.specs.Prelude.{◌≡◌, ◌≢◌, ◌+◌, ◌<◌, ◌≤◌, ◌^◌, ◌++◌, List, [], length, IsTrue, OnOk};
ghost use Rattle.std.specs.Option.{ForSome, option_map};
ghost use Rattle.jb_disk.specs.declared.piece.Length.{Length};
ghost use Rattle.jb_disk.specs.declared.piece.Piece.{Piece};
ghost use Rattle.jb_disk.specs.Device.{FailsBy};
ghost use Rattle.jb_disk.specs.Files.{Files};
ghost use Rattle.jb_disk.specs.Runs.{Keeps};
ghost use Rattle.jb_redo.specs.OnTheWay.{IsOnTheWay};
ghost use Rattle.jb_journal.specs.Coming.{ComeBy};
ghost use Rattle.jb_journal.specs.Filing.{IsWrittenBy};
ghost use Rattle.jb_journal.specs.Pending.{told_with, StandsInFile, Flushes, Gathers};
ghost use Rattle.jb_journal.specs.Writing.{Reaches, copied_over};

use crate::copying::{Copying, copy};
use jb_disk::{Disk, DiskFailed, FileId};
use std::marker::Model;

/// So many bytes are gathered at most, and go from file to file at once.
pub(crate) const MOST_BYTES: usize = 16_384;

/// Bytes on their way into a file, which are still to be written there.
#[derive(Drop)]
pub(crate) struct Gathering {
    file: FileId,
    at: u64,
    filled: usize,
    buffer: [u8; MOST_BYTES],
}

impl Model for Gathering {
    ghost use Rattle.std.specs.Prelude.{◌+◌, ◌<◌, ◌≤◌, ◌^◌, take};
    ghost use Rattle.jb_journal.specs.Pending.{Pending};

    ghost Value = { Pending };

    ghost view = { λ g. record { file = g.file; at = g.at; bytes = take g.filled g.buffer } };

    ghost invariant = { λ g. (g.filled ≤ 16384) × (g.at + g.filled < 2 ^ 63) };
}

impl Gathering {
    /// Nothing yet, on its way to this place of a file.
    pub(crate) fn new(file: FileId, at: u64) -> Gathering
        requires { at < 2 ^ 63 }
        ensures { result ≡ record { file = file; at = at; bytes = [] } }
    {
        Gathering {
            file,
            at,
            filled: 0,
            buffer: [0; MOST_BYTES],
        }
    }

    // Whether so many bytes for this place follow those that are gathered, and there is room for them.
    fn takes(&self, file: FileId, at: u64, count: usize) -> bool
        ensures here { IsTrue result → (self.now.file ≡ file) × (self.now.at + length self.now.bytes ≡ at) }
        ensures room { IsTrue result → length self.now.bytes + count ≤ 16384 }
    {
        self.file.number() == file.number()
            && self.at + self.filled as u64 == at
            && count <= MOST_BYTES - self.filled
    }

    // Takes bytes behind those that are gathered.
    fn append(&mut self, bytes: &[u8])
        requires room { length self.old.bytes + length bytes.now ≤ 16384 }
        requires fits { self.old.at + length self.old.bytes + length bytes.now < 2 ^ 63 }
        ensures { self.new
            ≡ record { file = self.old.file; at = self.old.at; bytes = self.old.bytes ++ bytes.now } }
    {
        let end = self.filled + bytes.len();
        self.buffer[self.filled..end].copy_from_slice(bytes);
        self.filled = end;
    }

    /// Writes what is gathered: one call, or none where there is nothing.
    pub(crate) fn flush<D: Disk>(&mut self, disk: &mut D) -> Result<(), DiskFailed>
        requires { StandsInFile self.old (D.device disk.old).contents }
        ensures { Flushes self.old (D.device disk.old) self.new (D.device disk.new) result }
    {
        let count = self.filled;
        self.filled = 0;
        if count == 0 {
            return Ok(());
        }
        disk.write_at(self.file, self.at, &self.buffer[..count])
    }

    /// Takes bytes for a place of a file. Where they do not follow what is gathered, or there is no room, that is written
    /// first; and where they are more than are gathered, they are written at once.
    pub(crate) fn put<D: Disk>(
        &mut self,
        disk: &mut D,
        file: FileId,
        at: u64,
        bytes: &[u8],
    ) -> Result<(), DiskFailed>
        requires fits { at + length bytes.now < 2 ^ 63 }
        requires held { StandsInFile self.old (D.device disk.old).contents }
        requires room { Reaches (told_with self.old (D.device disk.old).contents) file (at + length bytes.now) }
        ensures { Gathers file at bytes.now self.old (D.device disk.old) self.new (D.device disk.new) result }
    {
        if self.takes(file, at, bytes.len()) {
            self.append(bytes);
            return Ok(());
        }
        self.flush(disk)?;
        self.file = file;
        self.at = at;
        if bytes.len() > MOST_BYTES {
            return disk.write_at(file, at, bytes);
        }
        self.append(bytes);
        Ok(())
    }

    /// Copies bytes from one file into another, where none are gathered. They go through the buffer, so that the stack
    /// needs no other.
    pub(crate) fn copy<D: Disk>(
        &mut self,
        disk: &mut D,
        whole: Copying,
        len: u64,
    ) -> Result<(), DiskFailed>
        requires free { self.old.bytes ≡ [] }
        requires apart { ForSome (D.device disk.old).contents (λ files. whole.from ≢ whole.to) }
        requires from_fits { whole.from_at + len < 2 ^ 63 }
        requires to_fits { whole.to_at + len < 2 ^ 63 }
        requires source { Reaches (D.device disk.old).contents whole.from (whole.from_at + len) }
        requires target { Reaches (D.device disk.old).contents whole.to (whole.to_at + len) }
        ensures same { self.new ≡ self.old }
        ensures told { OnOk result ((D.device disk.new).contents ≡ option_map (copied_over whole.from
            whole.from_at whole.to whole.to_at len) (D.device disk.old).contents) }
        ensures keeps { (lengths : List Length) (pieces : List Piece) (start : Files)
            → IsWrittenBy start pieces whole.to whole.to_at len
            → Keeps (IsOnTheWay lengths pieces start) (D.device disk.old) (D.device disk.new) }
        ensures come { OnOk result (ComeBy [] [] (D.device disk.old).moments (D.device disk.new).moments) }
        ensures cause { FailsBy ⊥ (D.device disk.old) (D.device disk.new) result }
    {
        copy(disk, whole, len, &mut self.buffer)
    }
}
