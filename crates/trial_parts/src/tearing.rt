//! Opening, after a crash that left of each file some bytes as they were synced and the others as they were written.

ghost use Rattle.std.specs.Prelude.{◌≤◌, length};

use crate::journal::{put_files, put_opening};
use jb_bytes::{Bytes, OutOfMemory};
use jb_disk::MemDisk;
use jb_journal::recover;
use std::alloc::Global;
use trial_rows::{Files, Row, Words, file_of};

// The byte at a place of a file, or that of another one where it ends before.
fn byte_at(file: &[u8], other: &[u8], at: usize) -> u8 {
    match file.get(at) {
        Some(byte) => *byte,
        None => match other.get(at) {
            Some(byte) => *byte,
            None => 0,
        },
    }
}

// So many bytes: those of the first file before a place, and those of the other one from there on.
fn joined(
    alloc: Global,
    before: &[u8],
    behind: &[u8],
    place: usize,
    len: usize,
) -> Result<Bytes, OutOfMemory> {
    let mut bytes = Bytes::new(alloc);
    for at in 0..len {
        let byte = if at < place {
            byte_at(before, behind, at)
        } else {
            byte_at(behind, before, at)
        };
        bytes.append(&[byte])?;
    }
    Ok(bytes)
}

// Six files that are each torn at a place: of one disk before it, of the other from there on, with the lengths that the last has.
fn torn(
    alloc: Global,
    before: &MemDisk,
    behind: &MemDisk,
    place: usize,
    lengths: &MemDisk,
) -> Result<MemDisk, OutOfMemory> {
    let mut files = Files::new(alloc);
    for number in 0..6 {
        let file = file_of(number);
        let len = lengths.file(file).len();
        let bytes = joined(alloc, before.file(file), behind.file(file), place, len)?;
        files.set(file, bytes);
    }
    files.disk(alloc, &[])
}

// Keeps a text, unless it is kept already.
fn keep(kept: &mut Vec<String>, text: String, words: &mut Words) {
    if !kept.iter().any(|one| one.as_str() == text.as_str()) {
        words.done(kept.push(text));
    }
}

// Keeps what opening answers on this disk, and the files then.
fn keep_opening(kept: &mut Vec<String>, made: Result<MemDisk, OutOfMemory>, words: &mut Words) {
    let Some(mut disk) = words.made(made) else {
        return;
    };
    let mut told = Words::new(words.alloc);
    put_opening(&mut told, recover(&mut disk));
    put_files(&mut told, &disk);
    let text = words.text_of(told);
    keep(kept, text, words);
}

// The most bytes that a file has.
fn most(disk: &MemDisk) -> usize {
    let mut most = 0;
    for number in 0..6 {
        most = disk.file(file_of(number)).len().max(most);
    }
    most
}

// Keeps what comes of files that are torn at this place, either way, and with the lengths of either disk.
fn keep_torn(
    kept: &mut Vec<String>,
    synced: &MemDisk,
    written: &MemDisk,
    place: usize,
    words: &mut Words,
) {
    let alloc = words.alloc;
    for lengths in [synced, written] {
        keep_opening(kept, torn(alloc, written, synced, place, lengths), words);
        keep_opening(kept, torn(alloc, synced, written, place, lengths), words);
    }
}

// Whether each file has the same byte at this place on both disks, or ends before it on both.
fn are_same_at(synced: &MemDisk, written: &MemDisk, place: usize) -> bool {
    for number in 0..6 {
        let file = file_of(number);
        if synced.file(file).get(place) != written.file(file).get(place) {
            return false;
        }
    }
    true
}

// Keeps what comes of files that are torn at any place. Behind a byte that is the same they are those that are torn before it.
fn keep_all_torn(kept: &mut Vec<String>, synced: &MemDisk, written: &MemDisk, words: &mut Words) {
    keep_torn(kept, synced, written, 0, words);
    for place in 0..most(synced).max(most(written)) {
        if !are_same_at(synced, written, place) {
            keep_torn(kept, synced, written, place + 1, words);
        }
    }
}

// Keeps what comes of a crash after so many calls, for each pick and of torn files.
fn keep_crash(kept: &mut Vec<String>, disk: &MemDisk, after: u64, words: &mut Words)
    requires { after ≤ length disk.now.calls }
{
    for pick in 0..4 {
        keep_opening(kept, disk.crashed(after, pick), words);
    }
    match (disk.crashed(after, 0), disk.crashed(after, 1)) {
        (Ok(synced), Ok(written)) => keep_all_torn(kept, &synced, &written, words),
        _ => words.lack(),
    }
}

/// `torn FROM TO`: each thing that comes of a crash, for each pick and where it leaves each file torn, after any number of calls from
/// the first to the second: what opening answers, and the files then. A file is torn at any place, the same one in all, the bytes before
/// it as they were written and the others as they were synced, or the other way round; and it has either's length.
pub(crate) fn put_torn(disk: &MemDisk, row: &Row, words: &mut Words) {
    let (from, to) = (row.number(1, words), row.number(2, words));
    let mut kept = Vec::new(words.alloc);
    for after in from..=to.min(disk.calls()) {
        if after <= disk.calls() {
            keep_crash(&mut kept, disk, after, words);
        }
    }
    for text in kept.as_slice() {
        words.word(text.as_str());
    }
}
