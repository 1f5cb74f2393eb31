//! The doors and the bell of a host in memory.

use crate::edge::link_of;
use crate::host::hand_out;
use jb_host::{Accepted, Bell, Door, Host, MemBell, MemDoor, MemHost, Ring, send};
use trial_rows::{Row, Words};

/// For how many rings at most a bell is listened to.
const MOST_RINGS: u32 = 8;

/// Puts what the row about the doors of the host comes to; those that are out are kept beside it.
pub(crate) fn put_doors(host: &mut MemHost, out: &mut Vec<MemDoor>, row: &Row, words: &mut Words) {
    match row.word(1) {
        "add" => add(host, row, words),
        "door" => {
            let (node, port) = (row.u32(2, words), row.u16(3, words));
            let calls = row.u32(4, words);
            hand_out(out, host.door(node, port, Some(calls)), words);
        }
        "serve" => serve(out, row, words),
        "back" => put_back(host, out, row, words),
        _ => match host.door_of(row.u32(2, words)) {
            Some(door) => put_sent_on(door, words),
            None => words.word("none"),
        },
    }
}

// A door with one link, on which these bytes come.
fn add(host: &mut MemHost, row: &Row, words: &mut Words) {
    let alloc = words.alloc;
    let mut links = Vec::new(alloc);
    let link = link_of(row, 2, 3, words);
    words.done(links.push(link));
    if let Some(door) = words.made(MemDoor::new(alloc, links, Vec::new(alloc))) {
        words.done(host.add_door(door));
        words.word("ok");
    }
}

// The next caller at the door that is out longest is sent these bytes, and hung up.
fn serve(out: &mut Vec<MemDoor>, row: &Row, words: &mut Words) {
    let bytes = row.bytes(2, words);
    match out.first_mut() {
        Some(door) => put_served(door, bytes.as_slice(), words),
        None => words.word("none-is-out"),
    }
}

fn put_served(door: &mut MemDoor, bytes: &[u8], words: &mut Words) {
    match door.accept() {
        Ok(Accepted::Call(mut link)) => {
            words.ok(send(&mut link, bytes).is_ok());
            door.hang_up(link);
        }
        Ok(Accepted::Shut) => words.word("shut"),
        Err(_) => words.word("failed"),
    }
}

fn put_back(host: &mut MemHost, out: &mut Vec<MemDoor>, row: &Row, words: &mut Words) {
    let node = row.u32(2, words);
    if out.is_empty() {
        words.word("none-is-out");
    } else {
        host.put_door(node, out.remove(0));
        words.word("ok");
    }
}

// What was sent on each link that this door has back, in order.
fn put_sent_on(door: &MemDoor, words: &mut Words) {
    words.word("sent");
    for link in door.hung() {
        words.shown(link.sent());
    }
}

/// Puts what the row about the bell of the host comes to; those that are out are kept beside it.
pub(crate) fn put_bells(host: &mut MemHost, out: &mut Vec<MemBell>, row: &Row, words: &mut Words) {
    match row.word(1) {
        "add" => {
            host.add_bell(bell_of(row, words));
            words.word("ok");
        }
        "out" => hand_out(out, host.bell(1, 60, None), words),
        "listen" => match out.last_mut() {
            Some(bell) => put_rung(bell, words),
            None => words.word("none-is-out"),
        },
        _ => match out.pop() {
            Some(bell) => {
                host.put_bell(bell);
                words.word("ok");
            }
            None => words.word("none-is-out"),
        },
    }
}

// A bell in memory over the areas of the row.
fn bell_of(row: &Row, words: &mut Words) -> MemBell {
    let mut areas = Vec::new(words.alloc);
    for place in 2..row.len() {
        let area = row.u32(place, words);
        words.done(areas.push(area));
    }
    MemBell::new(areas)
}

// What a bell rings until it is shut.
fn put_rung(bell: &mut MemBell, words: &mut Words) {
    words.word("rings");
    for _ in 0..MOST_RINGS {
        match bell.next() {
            Ring::Pack(area) => words.number(u64::from(area)),
            Ring::Shut => return words.word("shut"),
        }
    }
}
