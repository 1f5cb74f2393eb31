//! What surrounds a program, in memory: its host with all that it hands out, a link, and disks that tell nothing.

use crate::{edge, entrance, host};
use arrayvec::ArrayVec;
use jb_bytes::Bytes;
use jb_disk::{MemDisk, SilentDisk, SteadyDisk};
use jb_host::{MemBell, MemDoor, MemHost, MemLink};
use std::alloc::Global;
use trial_rows::{Row, Words};

/// What the rows so far made.
#[derive(Drop)]
pub struct Surroundings {
    steady: Option<SteadyDisk>,
    silent: Option<SilentDisk<MemDisk>>,
    link: MemLink,
    into: [u8; 3],
    host: MemHost,
    disks: Vec<MemDisk>,
    doors: Vec<MemDoor>,
    bells: Vec<MemBell>,
}

impl Surroundings {
    /// A host with nothing, which fails these of its calls.
    pub fn new(alloc: Global, failing: Vec<u64>) -> Surroundings {
        let console = MemLink::new(alloc, Bytes::new(alloc), Vec::new(alloc));
        Surroundings {
            steady: None,
            silent: None,
            link: MemLink::new(alloc, Bytes::new(alloc), Vec::new(alloc)),
            into: [0; 3],
            host: MemHost::new(alloc, console, ArrayVec::new(), failing),
            disks: Vec::new(alloc),
            doors: Vec::new(alloc),
            bells: Vec::new(alloc),
        }
    }

    fn put_link(&mut self, row: &Row, words: &mut Words) {
        if row.word(1) == "read" {
            return edge::put_read(&mut self.link, &mut self.into, words);
        }
        self.link = edge::link_of(row, 2, 3, words);
        words.word("ok");
    }

    fn put_silent(&mut self, row: &Row, words: &mut Words) {
        match &mut self.silent {
            Some(silent) if row.word(1) != "new" => edge::put_silent(silent, row, words),
            _ => {
                self.silent = edge::silent_of(row, words);
                words.word("ok");
            }
        }
    }

    /// `link ..`, `steady ..`, `silent ..`, `host ..`, `entrance ..`, `bell ..`, `clock ..`, `console ..`: as README.md has them.
    pub fn answer(&mut self, row: &Row, words: &mut Words) {
        match row.word(0) {
            "link" => self.put_link(row, words),
            "steady" => edge::put_steady(&mut self.steady, row, words),
            "silent" => self.put_silent(row, words),
            "host" if row.word(1) == "new" => {
                *self = Surroundings::new(words.alloc, row.numbers(2, 0, words));
                words.word("ok");
            }
            "host" => host::put(&mut self.host, &mut self.disks, row, words),
            "entrance" => entrance::put_doors(&mut self.host, &mut self.doors, row, words),
            "bell" => entrance::put_bells(&mut self.host, &mut self.bells, row, words),
            "clock" => edge::put_clock(row, words),
            "console" => edge::put_console(row, words),
            _ => words.unknown(0),
        }
    }
}
