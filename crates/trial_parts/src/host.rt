//! A host in memory: its disks and its settings.

use crate::edge::disk_of;
use jb_disk::{FileId, MemDisk};
use jb_host::{Host, HostError, MemHost};
use trial_rows::{Row, Words};

/// Keeps what a host handed out, or puts that it refused.
pub(crate) fn hand_out<T: Drop>(out: &mut Vec<T>, asked: Result<T, HostError>, words: &mut Words) {
    match asked {
        Ok(one) => {
            words.word("out");
            words.done(out.push(one));
        }
        Err(error) => put_refused(error, words),
    }
}

fn put_refused(error: HostError, words: &mut Words) {
    match error {
        HostError::Failed => words.word("failed"),
        HostError::OutOfMemory => words.lack(),
    }
}

/// Puts what the row about the host comes to. What it hands out is put beside it.
pub(crate) fn put(host: &mut MemHost, out: &mut Vec<MemDisk>, row: &Row, words: &mut Words) {
    let (dir, name) = (row.word(2), row.word(3));
    match row.word(1) {
        "add" => add(host, row, words),
        "disk" => hand_out(out, host.disk(dir, name), words),
        "back" => match out.pop() {
            Some(disk) => {
                host.put_back(dir, name, disk);
                words.word("ok");
            }
            None => words.word("none-is-out"),
        },
        "at" => match host.disk_at(dir, name) {
            Some(disk) => words.shown(disk.file(FileId::Jhr)),
            None => words.word("none"),
        },
        _ => put_about_settings(host, row, words),
    }
}

// `host add DIR NAME BYTES`.
fn add(host: &mut MemHost, row: &Row, words: &mut Words) {
    if let Some(disk) = disk_of(row, 4, 5, words) {
        words.done(host.add_disk(row.word(2), row.word(3), disk));
        words.word("ok");
    }
}

// `host write PATH BYTES`, `host settings PATH`.
fn put_about_settings(host: &mut MemHost, row: &Row, words: &mut Words) {
    let path = row.word(2);
    match row.word(1) {
        "write" => {
            let bytes = row.bytes(3, words);
            words.done(host.add_settings(path, bytes));
            words.word("ok");
        }
        "settings" => match host.settings(path) {
            Ok(bytes) => words.shown(bytes.as_slice()),
            Err(error) => put_refused(error, words),
        },
        _ => words.unknown(1),
    }
}
