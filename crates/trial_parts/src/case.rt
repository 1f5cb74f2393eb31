//! Commands of an area of files in memory: in one piece and in two parts, abandoned, stopped at each call of the disk, and what a crash
//! leaves at each moment.

ghost use Rattle.std.specs.Prelude.{OnErr, OnOk};
ghost use Rattle.jb_area.specs.Area.{HasBegun, HasDoubt};
ghost use Rattle.jb_area.specs.Calls.{HasRest};
ghost use Rattle.trial_parts.specs.Leaves.{LeavesFailed};

use crate::calling::{Deed, abandon, ask, begin, finish, reopen};
use crate::opening::{closed, open, open_on};
use jb_area::{AreaError, OpenArea};
use jb_disk::{Disk, FileId, MemDisk};
use jb_journal::Stopped;
use jb_state::Loaded;
use std::alloc::Global;
use trial_rows::{Files, Row, RowError, Words, act_of, caller_in, command_by, file_of, put_reply};

// More than there are calls of the disk in any command here.
const MOST_CALLS: u64 = 500;

/// How a command is asked: in one piece, in two parts, or begun and abandoned.
#[derive(Clone, Copy)]
enum Way {
    Whole,
    Parts,
    Dropped,
}

/// What is done about a command that is stopped: it is settled, and asked again where it falls; or the area is closed in doubt.
#[derive(Clone, Copy)]
enum Then {
    Settle,
    Again,
    Leave,
}

/// How a command ended.
#[derive(Clone, Copy, PartialEq)]
enum Fate {
    Done,
    Stands,
    Falls,
    Doubtful,
}

/// What came of a run: the reply, how the command ended, the area in memory with the bytes of .JDT, and the disk.
#[derive(Drop)]
struct Came {
    reply: String,
    fate: Fate,
    stood: String,
    disk: MemDisk,
}

// Puts all that is loaded.
fn put_loaded(words: &mut Words, loaded: &Loaded) {
    for number in [
        loaded.base,
        loaded.counter,
        loaded.created,
        loaded.active,
        loaded.password,
    ] {
        words.number(u64::from(number));
    }
    words.number(loaded.headers_len);
    words.number(loaded.texts_len);
    words.shown(&loaded.reserved);
    words.debug(&loaded.slots.as_slice());
    words.debug(&loaded.marks.as_slice());
}

// Closes an area, and tells what it was.
fn ended(alloc: Global, area: OpenArea<MemDisk>) -> Result<(String, MemDisk), RowError> {
    let mut words = Words::new(alloc);
    put_loaded(&mut words, area.loaded());
    let disk = area.close();
    words.hexed(disk.file(FileId::Jdt));
    match words.end() {
        Ok(stood) => Ok((stood, disk)),
        Err(error) => Err(error),
    }
}

// What the area is that is opened on a disk.
fn anew(alloc: Global, disk: MemDisk) -> Result<String, RowError> {
    match open_on(alloc, disk) {
        Ok(area) => Ok(ended(alloc, area)?.0),
        Err(error) => Err(error),
    }
}

// What a command that was not done leaves: the area in doubt behind a fault, and at rest without memory.
fn failed<D: Disk>(area: &OpenArea<D>, error: AreaError, told: &mut Words) -> Result<(), Stopped>
    requires { LeavesFailed D.device area.now error }
    ensures done { OnOk result (HasRest D.device area.now) }
    ensures stopped { OnErr result (HasDoubt D.device area.now) }
{
    match error {
        AreaError::StoreFault => Err(Stopped::Early),
        AreaError::OutOfMemory => {
            told.lack();
            Ok(())
        }
    }
}

// Ends a command that is begun, and tells its reply; of one that is abandoned the reply that was coming.
fn end<D: Disk>(area: &mut OpenArea<D>, way: Way, told: &mut Words) -> Result<(), Stopped>
    requires { HasBegun D.device area.old }
    ensures done { OnOk result (HasRest D.device area.new) }
    ensures stopped { OnErr result (HasDoubt D.device area.new) }
{
    if let Way::Dropped = way {
        put_reply(told, area.coming());
        abandon(area);
        return Ok(());
    }
    match finish(area) {
        Ok(reply) => {
            put_reply(told, &reply);
            Ok(())
        }
        Err(stopped) => Err(stopped),
    }
}

// Asks a command, and tells its reply.
fn act<D: Disk>(
    alloc: Global,
    area: &mut OpenArea<D>,
    deed: &Deed,
    way: Way,
    told: &mut Words,
) -> Result<(), Stopped>
    requires { HasRest D.device area.old }
    ensures done { OnOk result (HasRest D.device area.new) }
    ensures stopped { OnErr result (HasDoubt D.device area.new) }
{
    match way {
        Way::Whole => match ask(alloc, area, deed) {
            Ok(reply) => {
                put_reply(told, &reply);
                Ok(())
            }
            Err(error) => failed(area, error, told),
        },
        _ => match begin(alloc, area, deed) {
            Ok(()) => end(area, way, told),
            Err(error) => failed(area, error, told),
        },
    }
}

// Settles a command that was stopped, and asks it again where it falls.
fn settle<D: Disk>(
    alloc: Global,
    area: &mut OpenArea<D>,
    deed: &Deed,
    then: Then,
    told: &mut Words,
) -> Fate
    requires { HasDoubt D.device area.old }
{
    match (reopen(area), then) {
        (Ok(true), _) => Fate::Stands,
        (Ok(false), Then::Again) => {
            let done = act(alloc, area, deed, Way::Parts, told);
            if done.is_ok() {
                Fate::Falls
            } else {
                Fate::Doubtful
            }
        }
        (Ok(false), _) => Fate::Falls,
        (Err(_), _) => Fate::Doubtful,
    }
}

/// A command in a base, what it is to answer, and the area before it and behind it.
#[derive(Drop)]
struct Case<'a> {
    alloc: Global,
    base: &'a Files,
    deed: Deed,
    opening: u64,
    kept: Files,
    before: String,
    whole: Came,
}

// What comes of a command in copies of these files, where the calls with these numbers fail.
fn run_on(
    alloc: Global,
    base: &Files,
    deed: &Deed,
    failing: &[u64],
    way: Way,
    then: Then,
) -> Result<Came, RowError> {
    let mut area = match open(alloc, base, failing) {
        Ok(area) => area,
        Err(error) => return Err(error),
    };
    let mut told = Words::new(alloc);
    let fate = match (act(alloc, &mut area, deed, way, &mut told), then) {
        (Ok(()), _) => Fate::Done,
        (Err(_), Then::Leave) => Fate::Doubtful,
        (Err(_), _) => settle(alloc, &mut area, deed, then, &mut told),
    };
    let (stood, disk) = ended(alloc, area)?;
    let reply = told.end()?;
    Ok(Came {
        reply,
        fate,
        stood,
        disk,
    })
}

impl<'a> Case<'a> {
    // The command that a row has behind its first word, and what it comes to in one piece.
    fn new(base: &'a Files, row: &Row, words: &mut Words) -> Result<Case<'a>, RowError> {
        let alloc = words.alloc;
        let caller = caller_in(row, 1, words)?;
        let Some(act) = act_of(row.word(3)) else {
            return Err(RowError::Unknown(3));
        };
        let command = command_by(alloc, &caller.user, act, row.u32(4, words))?;
        let deed = Deed { caller, command };
        let disk = closed(alloc, base)?;
        let opening = disk.calls();
        let kept = Files::of(alloc, &disk)?;
        let before = anew(alloc, disk)?;
        let whole = run_on(alloc, base, &deed, &[], Way::Whole, Then::Leave)?;
        Ok(Case {
            alloc,
            base,
            deed,
            opening,
            kept,
            before,
            whole,
        })
    }

    fn run(&self, failing: &[u64], way: Way, then: Then) -> Result<Came, RowError> {
        run_on(self.alloc, self.base, &self.deed, failing, way, then)
    }

    // Whether a run came to this area, in memory and opened anew.
    fn stands(&self, came: Came, wanted: &str) -> Result<bool, RowError> {
        Ok(came.stood.as_str() == wanted && anew(self.alloc, came.disk)?.as_str() == wanted)
    }

    // Whether the command in two parts is answered as in one piece, and leaves the same.
    fn is_as_whole(&self, came: Came) -> Result<bool, RowError> {
        let is_answer = came.reply.as_str() == self.whole.reply.as_str();
        Ok(self.stands(came, self.whole.stood.as_str())? && is_answer)
    }

    // Whether the abandoned command told the reply, and all files but .NDT are as they were.
    fn is_dropped(&self, came: Came) -> Result<bool, RowError> {
        let is_coming = came.reply.as_str() == self.whole.reply.as_str();
        let is_kept = (0..5).all(|number| {
            let file = file_of(number);
            came.disk.file(file) == self.kept.file(file)
        });
        Ok(self.stands(came, self.before.as_str())? && is_coming && is_kept)
    }

    // What a crash after so many calls leaves, by this pick: the area before the command (b), or behind it (a).
    fn picked(&self, disk: &MemDisk, calls: u64, pick: u8) -> Result<char, RowError> {
        if calls > disk.calls() || pick > 3 {
            return Err(RowError::Unknown(0));
        }
        let left = anew(self.alloc, disk.crashed(calls, pick)?)?;
        Ok(if left.as_str() == self.before.as_str() {
            'b'
        } else if left.as_str() == self.whole.stood.as_str() {
            'a'
        } else {
            'x'
        })
    }

    // What it leaves by all four picks; some so and some so (e).
    fn left(&self, disk: &MemDisk, calls: u64) -> Result<char, RowError> {
        let mut all = self.picked(disk, calls, 0)?;
        for pick in 1..4 {
            let one = self.picked(disk, calls, pick)?;
            all = match (all, one) {
                ('x', _) | (_, 'x') => 'x',
                _ if all == one => all,
                _ => 'e',
            };
        }
        Ok(all)
    }

    // Whether a command that stopped at this call goes on well: closed in doubt, a crash leaves one of the two areas, and settled and asked
    // again where it falls it is answered as if nothing had been asked.
    fn goes_on(&self, call: u64) -> Result<bool, RowError> {
        let left = self.run(&[call], Way::Parts, Then::Leave)?;
        if self.left(&left.disk, left.disk.calls())? == 'x' {
            return Ok(false);
        }
        let again = self.run(&[call], Way::Parts, Then::Again)?;
        Ok(again.fate != Fate::Falls || self.is_as_whole(again)?)
    }

    // Of a command whose call with this number fails: that it falls (f) or stands (s), as reopening answers, in memory and in the files; or
    // nothing, where it is done.
    fn settled(&self, call: u64) -> Result<Option<char>, RowError> {
        let came = self.run(&[call], Way::Parts, Then::Settle)?;
        let (letter, wanted) = match came.fate {
            Fate::Done => return Ok(None),
            Fate::Stands => ('s', &self.whole.stood),
            Fate::Falls => ('f', &self.before),
            Fate::Doubtful => return Ok(Some('x')),
        };
        let is_so = self.stands(came, wanted.as_str())? && self.goes_on(call)?;
        Ok(Some(if is_so { letter } else { 'x' }))
    }

    // Puts what a crash leaves at each moment of the command, and what comes of it where each of its calls fails.
    fn put_fates(&self, disk: &MemDisk, words: &mut Words) -> Result<(), RowError> {
        words.word("calls, left ");
        for calls in self.opening..=disk.calls() {
            words.put_char(self.left(disk, calls)?);
        }
        words.put(", stopped ");
        for more in 1..MOST_CALLS {
            match self.settled(self.opening.saturating_add(more))? {
                Some(letter) => words.put_char(letter),
                None => {
                    words.put(if more == 1 { "never" } else { "" });
                    break;
                }
            }
        }
        Ok(())
    }

    fn put(&self, words: &mut Words) -> Result<(), RowError> {
        let parts = self.run(&[], Way::Parts, Then::Leave)?;
        let dropped = self.run(&[], Way::Dropped, Then::Leave)?;
        let (all, first) = (parts.disk.calls(), dropped.disk.calls());
        let disk = self.run(&[], Way::Parts, Then::Leave)?.disk;
        if !self.is_as_whole(parts)? {
            words.word("otherwise than in one piece");
            return Ok(());
        }
        if !self.is_dropped(dropped)? {
            words.word("abandoned, it leaves something");
            return Ok(());
        }
        words.word(self.whole.reply.as_str());
        words.put(",");
        words.number(first.saturating_sub(self.opening));
        words.word("+");
        words.number(all.saturating_sub(first));
        self.put_fates(&disk, words)
    }
}

/// `parts NAME LEVEL ACT NUMBER`: a command in two parts, in copies of the base, beside the one in one piece, and abandoned: the reply, the
/// calls of both parts, and letters for what a crash leaves at each moment and what comes of it where each of its calls fails.
pub fn put_parts(base: &Files, row: &Row, words: &mut Words) {
    let done = match Case::new(base, row, words) {
        Ok(case) => case.put(words),
        Err(error) => Err(error),
    };
    words.heed(done);
}
