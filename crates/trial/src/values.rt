//! Calls that the built program does not make, and a text.

use jb_base::OutOfMemory;
use jb_disk::{MemDisk, Redo};
use jb_image::decode;
use jb_link::{Replies, is_live, relink_plan};
use jb_msgid::{MsgId, MsgIdError, parse, print};
use jb_pack::{Packing, plan};
use jb_state::Loaded;
use std::alloc::Global;
use trial_parts::open;
use trial_rows::{Files, Row, RowError, Words};

/// `no-memory`: how want of memory is told.
pub(crate) fn put_no_memory(words: &mut Words) {
    match format!(in words.alloc; "{OutOfMemory}") {
        Ok(text) => words.put(text.as_str()),
        Err(_) => words.lack(),
    }
}

fn put_usual(value: &MsgId, words: &mut Words) {
    if value.address.is_empty() {
        return words.unknown(1);
    }
    match print(words.alloc, value) {
        Ok(usual) => words.shown(usual.as_slice()),
        Err(_) => words.lack(),
    }
}

/// `msgid TEXT`: the usual text of the value, or what is wrong and where.
pub(crate) fn put_msgid(row: &Row, words: &mut Words) {
    let text = row.bytes(1, words);
    match parse(words.alloc, text.as_slice()) {
        Ok(value) => put_usual(&value, words),
        Err(MsgIdError::OutOfMemory) => words.lack(),
        Err(error) => words.debug(&error),
    }
}

fn put_numbers(loaded: &Loaded, number: u32, words: &mut Words) {
    if loaded.base != 1 || loaded.slots.as_slice().len() > 255 || !is_live(loaded, number) {
        return words.unknown(1);
    }
    let Ok(replies) = Replies::of(words.alloc, loaded) else {
        return words.lack();
    };
    match replies.thread(words.alloc, loaded, number) {
        Ok(numbers) => {
            for number in numbers.as_slice() {
                words.number(u64::from(*number));
            }
        }
        Err(_) => words.lack(),
    }
}

/// `thread NUMBER`: the numbers of the thread of a message of the base.
pub(crate) fn put_thread(base: &Files, row: &Row, words: &mut Words) {
    let number = row.u32(1, words);
    match open(words.alloc, base, &[]) {
        Ok(area) => {
            put_numbers(area.loaded(), number, words);
            let _disk = area.close();
        }
        Err(error) => words.refuse(error),
    }
}

// Plans a pack of the base on a disk.
fn planned(alloc: Global, disk: &mut MemDisk, redo: &mut Redo) -> Result<Packing, RowError> {
    let Ok(loaded) = decode(alloc, disk, 65_000) else {
        return Err(RowError::Unknown(0));
    };
    let links = relink_plan(alloc, &loaded)?;
    redo.clear();
    match plan(alloc, disk, &loaded, links.as_slice(), redo) {
        Ok(packing) => Ok(packing),
        Err(_) => Err(RowError::OutOfMemory),
    }
}

/// `plan`: what a pack of the base comes to.
pub(crate) fn put_plan(base: &Files, words: &mut Words) {
    let made = base.disk(words.alloc, &[]);
    let Some(mut disk) = words.made(made) else {
        return;
    };
    match planned(words.alloc, &mut disk, &mut Redo::new(words.alloc)) {
        Ok(packing) => words.debug(&packing),
        Err(error) => words.refuse(error),
    }
}
