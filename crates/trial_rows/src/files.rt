//! The six files of a base, in memory.

use crate::{Row, Words};
use jb_base::{Bytes, OutOfMemory};
use jb_disk::{FileId, MemDisk};
use std::alloc::Global;
use std::array;

/// The file with this number, from 0.
pub fn file_of(number: usize) -> FileId {
    match number {
        0 => FileId::Jhr,
        1 => FileId::Jdt,
        2 => FileId::Jdx,
        3 => FileId::Jlr,
        4 => FileId::Jnl,
        _ => FileId::Ndt,
    }
}

/// The file that the word at a place names.
pub fn file_at(row: &Row, place: usize, words: &mut Words) -> FileId {
    match row.word(place) {
        "jhr" => FileId::Jhr,
        "jdt" => FileId::Jdt,
        "jdx" => FileId::Jdx,
        "jlr" => FileId::Jlr,
        "jnl" => FileId::Jnl,
        "ndt" => FileId::Ndt,
        _ => {
            words.unknown(place);
            FileId::Jhr
        }
    }
}

// Puts a part so many times behind these bytes.
fn repeat(all: &mut Bytes, count: u32, part: &[u8]) -> Result<(), OutOfMemory> {
    for _ in 0..count {
        all.append(part)?;
    }
    Ok(())
}

/// The files of a base.
#[derive(Drop)]
pub struct Files {
    files: [Bytes; 6],
}

impl Files {
    /// Six empty files.
    pub fn new(alloc: Global) -> Files {
        Files {
            files: array::from_fn(|_| Bytes::new(alloc)),
        }
    }

    /// What a file holds.
    pub fn file(&self, file: FileId) -> &[u8] {
        match self.files.get(file.number() as usize) {
            Some(bytes) => bytes.as_slice(),
            None => b"",
        }
    }

    /// Gives a file these bytes.
    pub fn set(&mut self, file: FileId, bytes: Bytes) {
        if let Some(place) = self.files.get_mut(file.number() as usize) {
            *place = bytes;
        }
    }

    // Puts these bytes so many times behind those of a file.
    fn append(
        &mut self,
        alloc: Global,
        file: FileId,
        count: u32,
        part: &[u8],
    ) -> Result<(), OutOfMemory> {
        let mut whole = Bytes::copy(alloc, self.file(file))?;
        repeat(&mut whole, count, part)?;
        self.set(file, whole);
        Ok(())
    }

    // Gives .JHR the fixed header of a base without a message: made 1,000,000,000 seconds after 1970, no change, no message, no
    // password, the number 1 for its first message, and 1,000 zeros.
    fn begin(&mut self, alloc: Global) -> Result<(), OutOfMemory> {
        let mut header = [0; 1_024];
        header[..20].copy_from_slice(b"JAM\0\x00\xCA\x9A\x3B\0\0\0\0\0\0\0\0\xFF\xFF\xFF\xFF");
        header[20] = 1;
        self.set(FileId::Jhr, Bytes::copy(alloc, &header)?);
        Ok(())
    }

    /// The files that this disk holds.
    pub fn of(alloc: Global, disk: &MemDisk) -> Result<Files, OutOfMemory> {
        match array::try_from_fn(|number| Bytes::copy(alloc, disk.file(file_of(number)))) {
            Ok(files) => Ok(Files { files }),
            Err(error) => Err(error),
        }
    }

    /// A disk with the files, which fails the calls with these numbers.
    pub fn disk(&self, alloc: Global, failing: &[u64]) -> Result<MemDisk, OutOfMemory> {
        let Ok(failing) = failing.to_vec(alloc) else {
            return Err(OutOfMemory);
        };
        match array::try_from_fn(|number| Bytes::copy(alloc, self.file(file_of(number)))) {
            Ok(files) => MemDisk::new(alloc, files, failing),
            Err(error) => Err(error),
        }
    }

    // Puts bytes behind those of a file.
    fn put_behind(&mut self, row: &Row, words: &mut Words) {
        let file = file_at(row, 1, words);
        let count = row.u32(2, words);
        let bytes = row.bytes(3, words);
        if words.is_right() {
            let done = self.append(words.alloc, file, count, bytes.as_slice());
            words.done(done);
        }
    }

    /// `base`: an empty base. `files`: six empty files. `empty FILE`: one of them. `append FILE COUNT BYTES`: so many times these bytes
    /// behind the others of a file.
    pub fn change(&mut self, row: &Row, words: &mut Words) {
        match row.word(0) {
            "base" => {
                *self = Files::new(words.alloc);
                let done = self.begin(words.alloc);
                words.done(done);
            }
            "files" => *self = Files::new(words.alloc),
            "empty" => self.set(file_at(row, 1, words), Bytes::new(words.alloc)),
            _ => self.put_behind(row, words),
        }
        words.word(row.word(0));
    }
}
