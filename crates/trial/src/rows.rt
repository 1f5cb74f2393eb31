//! The rows: one base, and the area that is shared in it.
ghost use Rattle.std.specs.Prelude.{◌<◌, ◌≤◌, IfOk, ◌+◌};
ghost use Rattle.jb_limits.specs.declared.limits.TheConstants.{MOST_NODES};

use crate::backing::empty_disk;
use crate::following::{followed_in, in_order, plan_in, put_judged};
use crate::noted::NODES;
use crate::shared::{Ask, Shared};
use crate::values::{put_msgid, put_no_memory, put_plan, put_thread};
use jb_area::OpenArea;
use jb_disk::MemDisk;
use jb_state::Question;
use std::alloc::Global;
use std::mem;
use std::sync::{Mutex, Wait};
use std::thread::Threads;
use trial_parts::{Journal, Surroundings, area_in, put_pages, put_parts, put_seats};
use trial_rows::{Caller, Files, Row, RowError, Words, act_of, caller_in, command_by};

/// What the rows so far made.
pub(crate) struct Trial<'a, R: Threads + Wait + Sync> {
    rt: &'a R,
    base: Files,
    shared: Option<Shared<MemDisk>>,
    journal: Journal,
    surroundings: Surroundings,
}

// The number of nodes at place 1 of a row.
fn nodes_in(row: &Row, words: &mut Words) -> Result<u32, RowError>
    ensures { IfOk result (λ nodes. (0 < nodes) × (nodes ≤ MOST_NODES + 1)) }
{
    match row.u32(1, words) {
        nodes @ 1..=NODES => Ok(nodes),
        _ => Err(RowError::Unknown(1)),
    }
}

// The command of a row by this user.
fn command_in(row: &Row, caller: &Caller, words: &mut Words) -> Result<Ask, RowError> {
    let Some(act) = act_of(row.word(4)) else {
        return Err(RowError::Unknown(4));
    };
    let number = row.u32(5, words);
    Ok(Ask::Call(command_by(words.alloc, &caller.user, act, number)?))
}

// What a row asks.
fn ask_in(row: &Row, caller: &Caller, words: &mut Words) -> Result<Ask, RowError> {
    let (from, most) = (0, 100);
    let question = match row.word(0) {
        "call" => return command_in(row, caller, words),
        "count" => return Ok(Ask::Count),
        "list" => Question::List { from, most },
        "unread" => Question::Unread { from, most },
        "to" => Question::To { from, most },
        "figures" => Question::Figures,
        _ => return Err(RowError::Unknown(0)),
    };
    Ok(Ask::Look(question))
}

// The base has these files from now on.
fn put_base(base: &mut Files, new: Files) {
    *base = new;
}

// Whether the closed area is in doubt, and how many messages are live in it.
fn put_closed(area: &OpenArea<MemDisk>, words: &mut Words) {
    words.word(if area.in_doubt() {
        "in doubt,"
    } else {
        "at rest,"
    });
    words.number(u64::from(area.loaded().active));
    words.word("live");
}

impl<'a, R: Threads + Wait + Sync> Trial<'a, R> {
    /// No base yet.
    pub(crate) fn new(rt: &'a R, alloc: Global) -> Trial<'a, R> {
        Trial {
            rt,
            base: Files::new(alloc),
            shared: None,
            journal: Journal::new(),
            surroundings: Surroundings::new(alloc, Vec::new(alloc)),
        }
    }

    // This area is shared from now on, in place of the one before.
    fn set_shared(&mut self, shared: Option<Shared<MemDisk>>) {
        if let Some(before) = mem::replace(&mut self.shared, shared) {
            let _disk = before.end(self.rt);
        }
    }

    // The base has the files of this disk from now on.
    fn take(&mut self, disk: &MemDisk, words: &mut Words) {
        match Files::of(words.alloc, disk) {
            Ok(files) => put_base(&mut self.base, files),
            Err(_) => words.lack(),
        }
    }

    // Shares the area of the base, for nodes and on a disk as the row says.
    fn share(&mut self, row: &Row, words: &mut Words) -> Result<(), RowError> {
        let nodes = nodes_in(row, words)?;
        let shared = match area_in(&self.base, row, 2, words) {
            Ok(area) => Shared::new(self.rt, words.alloc, area, nodes),
            Err(error) => Err(error),
        };
        match shared {
            Ok(shared) => {
                self.set_shared(Some(shared));
                words.word("shared");
                Ok(())
            }
            Err(error) => Err(error),
        }
    }

    // Asks what the row says as its user.
    fn ask(&mut self, row: &Row, words: &mut Words) -> Result<(), RowError> {
        let caller = caller_in(row, 2, words)?;
        let ask = ask_in(row, &caller, words)?;
        match &mut self.shared {
            _ if !words.is_right() => {}
            Some(shared) => shared.ask(self.rt, row, &caller, &ask, words),
            None => words.word("no area is shared"),
        }
        Ok(())
    }

    // Nodes in threads follow the plan of the row.
    fn follow(&self, row: &Row, words: &mut Words) -> Result<(), RowError> {
        let plan = plan_in(row, words);
        let log = Mutex::new(Vec::new(words.alloc));
        let base = followed_in(self.rt, &self.base, row, &log, plan, words)?;
        let noted = in_order(log, words);
        put_judged(plan, noted.as_slice(), &base, words)
    }

    fn back_up(&mut self, row: &Row, words: &mut Words) {
        let failing = row.numbers(2, 0, words);
        match (
            &mut self.shared,
            empty_disk(words.alloc, failing.as_slice()),
        ) {
            (Some(shared), Ok(onto)) => shared.back_up(self.rt, row, onto, words),
            (None, _) => words.word("no area is shared"),
            _ => words.lack(),
        }
    }

    // Closes the area with the passes below this node.
    fn close(&mut self, below: u32, words: &mut Words) {
        let Some(shared) = self.shared.take() else {
            return words.word("no area is shared");
        };
        match shared.close(self.rt, below) {
            Ok(area) => {
                put_closed(&area, words);
                self.take(&area.close(), words);
            }
            Err((shared, refusal)) => {
                self.set_shared(Some(shared));
                match refusal {
                    Some(missing) => words.debug(&missing),
                    None => words.lack(),
                }
            }
        }
    }

    /// Closes the area that is still shared.
    pub(crate) fn end(self) {
        let Trial {
            rt,
            base: _,
            shared,
            journal: _,
            surroundings: _,
        } = self;
        if let Some(shared) = shared {
            let _disk = shared.end(rt);
        }
    }

    // Changes the files of the base, in which no area is shared then.
    fn change(&mut self, row: &Row, words: &mut Words) {
        self.set_shared(None);
        self.base.change(row, words);
    }

    // What speaks of the area that is shared.
    fn about_shared(&mut self, row: &Row, words: &mut Words) {
        match row.word(0) {
            "share" => {
                let done = self.share(row, words);
                words.heed(done);
            }
            "close" => self.close(u32::MAX, words),
            "close-below" => {
                let below = row.u32(1, words);
                self.close(below, words);
            }
            "backup" => self.back_up(row, words),
            _ => {
                let done = self.ask(row, words);
                words.heed(done);
            }
        }
    }

    // What runs in threads.
    fn in_threads(&mut self, row: &Row, words: &mut Words) {
        match row.word(0) {
            "crowd" | "packers" | "lookers" => {
                let done = self.follow(row, words);
                words.heed(done);
            }
            "seats" => put_seats(self.rt, row, words),
            "pages" => put_pages(self.rt, row, words),
            _ => self.about_shared(row, words),
        }
    }

    /// Puts what the row comes to.
    pub(crate) fn answer(&mut self, row: &Row, words: &mut Words) {
        match row.word(0) {
            "base" | "files" | "empty" | "append" => self.change(row, words),
            "parts" => put_parts(&self.base, row, words),
            "no-memory" => put_no_memory(words),
            "thread" => put_thread(&self.base, row, words),
            "plan" => put_plan(&self.base, words),
            "msgid" => put_msgid(row, words),
            "prepared" | "commit" | "opened" | "torn" => self
                .journal
                .answer(&self.base, row, words),
            "link" | "steady" | "silent" | "host" | "entrance" | "bell" | "clock" | "console" => {
                self.surroundings.answer(row, words)
            }
            _ => self.in_threads(row, words),
        }
    }
}
