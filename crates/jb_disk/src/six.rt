//! Six files in memory, with no device behind them.
ghost use Rattle.std.specs.Prelude.{◌≡◌, ◌≢◌, ◌+◌, ◌≤◌, [], length, IfOk, OnOk, OnErr};
ghost use Rattle.jb_disk.specs.Files.{overwritten};
ghost use Rattle.jb_disk.specs.Memory.{of_length, files_of_list};

use crate::FileId;
use jb_bytes::{Bytes, OutOfMemory};
use std::alloc::Global;

/// The bytes of each file.
pub(crate) struct Six {
    jhr: Vec<u8>,
    jdt: Vec<u8>,
    jdx: Vec<u8>,
    jlr: Vec<u8>,
    jnl: Vec<u8>,
    ndt: Vec<u8>,
}

// Whoever lets go of one does so in one call.
impl Drop for Six {
    fn drop(self) {
        let Six {
            jhr: _jhr,
            jdt: _jdt,
            jdx: _jdx,
            jlr: _jlr,
            jnl: _jnl,
            ndt: _ndt,
        } = self;
    }
}

impl Six {
    ghost use Rattle.jb_disk.specs.Memory.{files_of};

    /// A copy of six byte strings, in the order of their numbers.
    pub(crate) fn copy(alloc: Global, files: &[Bytes; 6]) -> Result<Six, OutOfMemory>
        ensures { IfOk result (λ six. (file : FileId) → files_of six file ≡ files_of_list files.now file) }
    {
        Ok(Six {
            jhr: files[0].as_slice().to_vec(alloc)?,
            jdt: files[1].as_slice().to_vec(alloc)?,
            jdx: files[2].as_slice().to_vec(alloc)?,
            jlr: files[3].as_slice().to_vec(alloc)?,
            jnl: files[4].as_slice().to_vec(alloc)?,
            ndt: files[5].as_slice().to_vec(alloc)?,
        })
    }

    /// Six empty files, each with room for so many bytes.
    pub(crate) fn with_room(alloc: Global, room: usize) -> Result<Six, OutOfMemory>
        ensures { IfOk result (λ six. (file : FileId) → files_of six file ≡ []) }
    {
        Ok(Six {
            jhr: Vec::with_capacity(alloc, room)?,
            jdt: Vec::with_capacity(alloc, room)?,
            jdx: Vec::with_capacity(alloc, room)?,
            jlr: Vec::with_capacity(alloc, room)?,
            jnl: Vec::with_capacity(alloc, room)?,
            ndt: Vec::with_capacity(alloc, room)?,
        })
    }

    /// The bytes of a file.
    pub(crate) fn file(&self, file: FileId) -> &[u8]
        ensures { result.now ≡ files_of self.now file }
    {
        match file {
            FileId::Jhr => &self.jhr,
            FileId::Jdt => &self.jdt,
            FileId::Jdx => &self.jdx,
            FileId::Jlr => &self.jlr,
            FileId::Jnl => &self.jnl,
            FileId::Ndt => &self.ndt,
        }
    }

    /// Writes over a file's bytes.
    pub(crate) fn overwrite(&mut self, file: FileId, at: usize, bytes: &[u8])
        requires { at + length bytes.now ≤ length (files_of self.old file) }
        ensures here { files_of self.new file ≡ overwritten at bytes.now (files_of self.old file) }
        ensures others { (other : FileId) → other ≢ file → files_of self.new other ≡ files_of self.old other }
    {
        match file {
            FileId::Jhr => overwrite(&mut self.jhr, at, bytes),
            FileId::Jdt => overwrite(&mut self.jdt, at, bytes),
            FileId::Jdx => overwrite(&mut self.jdx, at, bytes),
            FileId::Jlr => overwrite(&mut self.jlr, at, bytes),
            FileId::Jnl => overwrite(&mut self.jnl, at, bytes),
            FileId::Ndt => overwrite(&mut self.ndt, at, bytes),
        }
    }

    /// Cuts a file, or puts zeros behind it.
    pub(crate) fn resize(&mut self, file: FileId, len: usize) -> Result<(), OutOfMemory>
        ensures ok { OnOk result (files_of self.new file ≡ of_length len (files_of self.old file)) }
        ensures err { OnErr result (files_of self.new file ≡ files_of self.old file) }
        ensures kept { (other : FileId) → other ≢ file → files_of self.new other ≡ files_of self.old other }
    {
        match file {
            FileId::Jhr => resize(&mut self.jhr, len),
            FileId::Jdt => resize(&mut self.jdt, len),
            FileId::Jdx => resize(&mut self.jdx, len),
            FileId::Jlr => resize(&mut self.jlr, len),
            FileId::Jnl => resize(&mut self.jnl, len),
            FileId::Ndt => resize(&mut self.ndt, len),
        }
    }
}

pub(crate) fn overwrite(file: &mut Vec<u8>, at: usize, bytes: &[u8])
    requires { at + length bytes.now ≤ length file.old.items }
    ensures { file.new.items ≡ overwritten at bytes.now file.old.items }
{
    file[at..at + bytes.len()].copy_from_slice(bytes);
}

pub(crate) fn resize(file: &mut Vec<u8>, len: usize) -> Result<(), OutOfMemory>
    ensures ok { OnOk result (file.new.items ≡ of_length len file.old.items) }
    ensures err { OnErr result (file.new.items ≡ file.old.items) }
{
    file.resize(len, 0)?;
    Ok(())
}
