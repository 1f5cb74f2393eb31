//! What is in memory and what nothing else runs: disks, a link, a console and clocks.

use arrayvec::ArrayVec;
use jb_bytes::Bytes;
use jb_disk::{Disk, FileId, MemDisk, SilentDisk, SteadyDisk};
use jb_host::{Clock, Host, Link, MemHost, MemLink, send};
use trial_rows::{Files, Row, Words, file_at};

/// A disk whose .JHR has the bytes at this place of the row and whose other files have none, and which fails the calls that the row
/// numbers from the other place on.
pub(crate) fn disk_of(row: &Row, place: usize, from: usize, words: &mut Words) -> Option<MemDisk> {
    let alloc = words.alloc;
    let mut files = Files::new(alloc);
    files.set(FileId::Jhr, row.bytes(place, words));
    let failing = row.numbers(from, 0, words);
    words.made(files.disk(alloc, failing.as_slice()))
}

/// A link with the input at this place of the row, which fails the calls that the row numbers from the other place on.
pub(crate) fn link_of(row: &Row, place: usize, from: usize, words: &mut Words) -> MemLink {
    let input = row.bytes(place, words);
    let failing = row.numbers(from, 0, words);
    MemLink::new(words.alloc, input, failing)
}

/// `clock READING..`: what a clock of a host with these readings gives in three calls, and then what another shows and gives.
pub(crate) fn put_clock(row: &Row, words: &mut Words) {
    let alloc = words.alloc;
    let link = MemLink::new(alloc, Bytes::new(alloc), Vec::new(alloc));
    let mut readings = ArrayVec::new();
    for place in 1..row.len() {
        let _ = readings.try_push(row.u32(place, words));
    }
    let mut host = MemHost::new(alloc, link, readings, Vec::new(alloc));
    let mut first = host.clock();
    for _ in 0..3 {
        words.number(u64::from(first.now()));
    }
    let mut second = host.clock();
    words.number(u64::from(second.glance()));
    words.number(u64::from(second.now()));
}

/// `console INPUT OUTPUT`: what a host whose console has this input answers for its console once that is out, whether the output is
/// sent, and what was sent once it is back.
pub(crate) fn put_console(row: &Row, words: &mut Words) {
    let alloc = words.alloc;
    let output = row.bytes(2, words);
    let link = link_of(row, 1, 3, words);
    let mut host = MemHost::new(alloc, link, ArrayVec::new(), Vec::new(alloc));
    let mut console = host.console();
    put_at_console(&host, words);
    words.truth(send(&mut console, output.as_slice()).is_ok());
    host.put_console(console);
    put_at_console(&host, words);
}

fn put_at_console(host: &MemHost, words: &mut Words) {
    match host.console_link() {
        Some(link) => words.shown(link.sent()),
        None => words.word("none"),
    }
}

/// `link read`: how many bytes are read, and the bytes into which they are read.
pub(crate) fn put_read(link: &mut MemLink, into: &mut [u8; 3], words: &mut Words) {
    match link.read(into) {
        Ok(count) => words.number(count as u64),
        Err(_) => words.word("failed"),
    }
    words.shown(into);
}

/// `steady new ROOM`, `steady file FILE`: six empty files, and what one holds.
pub(crate) fn put_steady(kept: &mut Option<SteadyDisk>, row: &Row, words: &mut Words) {
    let alloc = words.alloc;
    match kept {
        Some(disk) if row.word(1) == "file" => {
            let file = file_at(row, 2, words);
            words.shown(disk.file(file));
        }
        _ => {
            let room = row.number(2, words);
            *kept = words.made(SteadyDisk::new(alloc, room));
            words.word("ok");
        }
    }
}

/// `silent new BYTES LIMIT N..`: a silent disk with this limit, over one that fails these calls.
pub(crate) fn silent_of(row: &Row, words: &mut Words) -> Option<SilentDisk<MemDisk>> {
    let limit = row.number(3, words);
    match disk_of(row, 2, 4, words) {
        Some(memory) => Some(SilentDisk::stopping(memory, limit)),
        None => None,
    }
}

/// `silent len FILE`, `silent sync FILE`: whether a call of the silent disk was done. `silent calls`: how many calls were passed on,
/// and the syncs among them.
pub(crate) fn put_silent(silent: &mut SilentDisk<MemDisk>, row: &Row, words: &mut Words) {
    match row.word(1) {
        "calls" => {
            words.number(silent.calls());
            words.number(silent.syncs());
        }
        "len" => {
            let file = file_at(row, 2, words);
            words.ok(silent.len(file).is_ok());
        }
        _ => {
            let file = file_at(row, 2, words);
            words.ok(silent.sync(file).is_ok());
        }
    }
}
