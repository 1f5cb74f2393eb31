//! A backup, how its target opens, and what a stop leaves of it.

use jb_area_open::OpeningError;
use jb_backup::BackupError;
use jb_base::OutOfMemory;
use jb_disk::MemDisk;
use jb_image::OpenError;
use jb_shared::Backed;
use std::alloc::Global;
use trial_parts::live_on;
use trial_rows::{Files, RowError, Words};

/// The target of a backup, and what the backup was answered.
#[derive(Drop)]
pub(crate) struct Backup {
    pub onto: MemDisk,
    pub backed: Result<Backed, BackupError>,
}

/// A disk with six empty files that fails these of its calls.
pub(crate) fn empty_disk(alloc: Global, failing: &[u64]) -> Result<MemDisk, OutOfMemory> {
    Files::new(alloc).disk(alloc, failing)
}

// How what a stop after so many calls leaves opens, by the pick.
fn left_opening(
    alloc: Global,
    onto: &MemDisk,
    after: u64,
    pick: u8,
) -> Result<Result<u32, OpeningError>, RowError> {
    if after > onto.calls() || pick > 3 {
        return Err(RowError::Unknown(0));
    }
    live_on(alloc, onto.crashed(after, pick)?)
}

// After each call of the target, and by each pick: how often a stop leaves what opens to so many live messages, how often what is
// refused for the fixed header or its signature, and how often anything else.
fn put_stops(onto: &MemDisk, live: u32, words: &mut Words) {
    let (mut open, mut refused, mut other) = (0_u64, 0_u64, 0_u64);
    for stop in 0..onto.calls().saturating_add(1).saturating_mul(4) {
        match left_opening(words.alloc, onto, stop / 4, (stop % 4) as u8) {
            Ok(Ok(found)) if found == live => open = open.saturating_add(1),
            Ok(Err(OpeningError::Base(OpenError::ShortHeader | OpenError::BadSignature))) => {
                refused = refused.saturating_add(1)
            }
            Ok(_) => other = other.saturating_add(1),
            Err(error) => words.refuse(error),
        }
    }
    words.put("; stops:");
    words.number(open);
    words.word("open so,");
    words.number(refused);
    words.word("refused for the header,");
    words.number(other);
    words.word("otherwise");
}

/// What the backup was answered, how many messages are live where the target opens, or why it does not, and of a whole one what its
/// stops leave.
pub(crate) fn put_backup(backup: &Backup, words: &mut Words) {
    match &backup.backed {
        Ok(backed) => {
            words.named("backed", backed.entries);
            words.number(u64::from(backed.live));
        }
        Err(error) => words.debug(error),
    }
    words.put(",");
    match left_opening(words.alloc, &backup.onto, backup.onto.calls(), 1) {
        Ok(Ok(live)) => words.named("opens", u64::from(live)),
        Ok(Err(error)) => words.debug(&error),
        Err(error) => words.refuse(error),
    }
    if let Ok(backed) = &backup.backed {
        put_stops(&backup.onto, backed.live, words);
    }
}
