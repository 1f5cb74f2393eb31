//! Calls of the journal on disks in memory that tell nothing, and the disk that is left.

ghost use Rattle.std.specs.Prelude.{IfOk};
ghost use Rattle.jb_redo.specs.Changes.{IsWritable};

use crate::tearing::put_torn;
use jb_bytes::OutOfMemory;
use jb_disk::{FileId, Length, MemDisk, Redo, SilentDisk};
use jb_journal::{JournalError, Recovered, commit, prepare, recover};
use std::alloc::Global;
use trial_rows::{Files, Row, Words};

/// The disk of the last call.
#[derive(Drop)]
pub struct Journal {
    done: Option<SilentDisk<MemDisk>>,
}

/// What opening answers.
pub(crate) fn put_opening(words: &mut Words, answer: Result<Recovered, JournalError>) {
    match answer {
        Ok(Recovered::Closed) => words.word("closed"),
        Ok(Recovered::Replayed { version, change }) => {
            words.named("replayed", u64::from(version));
            words.number(change);
        }
        Err(JournalError::BadRecord { at }) => {
            words.word("bad-");
            words.put_number(at);
        }
        Err(JournalError::StoreFault) => words.word("fault"),
    }
}

/// The files, all but the journal and .NDT.
pub(crate) fn put_files(words: &mut Words, disk: &MemDisk) {
    words.shown(disk.file(FileId::Jhr));
    for file in [FileId::Jdt, FileId::Jdx, FileId::Jlr] {
        words.put("/");
        words.put_shown(disk.file(file));
    }
}

// A change: .JHR gets length 10, .JDT 7 and .JDX 4. `WXYZ` goes into .JHR at 6, five bytes of .NDT from 3 on into .JDT at 2, `IDX`
// into .JDX at 0, and `L` into .JLR at 1.
fn change(alloc: Global) -> Result<Redo, OutOfMemory>
    ensures { IfOk result (λ redo. IsWritable redo) }
{
    let mut redo = Redo::new(alloc);
    let Ok(()) = redo.reserve(3, 4, 8) else {
        return Err(OutOfMemory);
    };
    redo.put_len(Length {
        file: FileId::Jhr,
        len: 10,
    });
    redo.put_len(Length {
        file: FileId::Jdt,
        len: 7,
    });
    redo.put_len(Length {
        file: FileId::Jdx,
        len: 4,
    });
    redo.put_bytes(FileId::Jhr, 6, b"WXYZ");
    redo.put_copy(FileId::Ndt, 3, FileId::Jdt, 2, 5);
    redo.put_bytes(FileId::Jdx, 0, b"IDX");
    redo.put_bytes(FileId::Jlr, 1, b"L");
    Ok(redo)
}

fn put_commit(silent: &mut SilentDisk<MemDisk>, redo: &Redo, number: u64, words: &mut Words)
    requires { IsWritable redo.now }
{
    let before = silent.disk.calls();
    words.truth(commit(silent, redo, number).is_ok());
    words.number(silent.disk.calls().saturating_sub(before));
}

fn put_committed(silent: &mut SilentDisk<MemDisk>, number: u64, words: &mut Words) {
    match prepare(silent) {
        Ok(()) => words.hexed(silent.disk.file(FileId::Jnl)),
        Err(_) => words.word("failed"),
    }
    match change(words.alloc) {
        Ok(redo) => put_commit(silent, &redo, number, words),
        Err(_) => words.lack(),
    }
    put_files(words, &silent.disk);
}

fn put_done(silent: &mut SilentDisk<MemDisk>, row: &Row, words: &mut Words) {
    match row.word(0) {
        "prepared" => {
            words.ok(prepare(silent).is_ok());
            words.number(silent.disk.calls());
        }
        "commit" => {
            let number = row.number(1, words);
            put_committed(silent, number, words);
        }
        _ => {
            put_opening(words, recover(silent));
            words.number(silent.disk.calls());
            put_files(words, &silent.disk);
        }
    }
    words.hexed(silent.disk.file(FileId::Jnl));
}

impl Journal {
    /// No disk.
    pub fn new() -> Journal {
        Journal { done: None }
    }

    /// `prepared`, `commit NUMBER`, `opened`: a call on a disk with the files, and what is left. `torn FROM TO`: what comes of crashes
    /// then.
    pub fn answer(&mut self, files: &Files, row: &Row, words: &mut Words) {
        match row.word(0) {
            "torn" => match &self.done {
                Some(silent) => put_torn(&silent.disk, row, words),
                None => words.unknown(0),
            },
            _ => {
                let made = files.disk(words.alloc, &[]);
                if let Some(disk) = words.made(made) {
                    let mut silent = SilentDisk::new(disk);
                    put_done(&mut silent, row, words);
                    self.done = Some(silent);
                }
            }
        }
    }
}
