//! What nodes in threads did, once more by the plain program.

use crate::noted::{Deed, Noted, Told};
use jb_disk::FileId;
use jb_model::{Asked, Reply};
use jb_plain::{may_run, run_slow};
use jb_state::Area;
use std::alloc::Global;
use trial_parts::open;
use trial_rows::{
    Caller, Files, MOMENT, RowError, Words, caller_at, command_by, plain_area, rules_of, same_area,
};

// What a node asked.
fn asked_by(alloc: Global, one: &Noted) -> Result<Asked, RowError> {
    let Deed::Asked(act, number) = one.deed else {
        return Err(RowError::Unknown(0));
    };
    let Caller { user } = caller_at(alloc, one.node)?;
    let command = command_by(alloc, &user, act, number)?;
    Ok(Asked {
        user,
        moment: MOMENT,
        command,
    })
}

// What all asked, in this order.
fn all_asked(alloc: Global, noted: &[Noted]) -> Result<Vec<Asked>, RowError> {
    let mut all = Vec::new(alloc);
    for one in noted {
        let asked = asked_by(alloc, one)?;
        if all.push(asked).is_err() {
            return Err(RowError::OutOfMemory);
        }
    }
    Ok(all)
}

// Whether a node was told this reply.
fn is_told(alloc: Global, told: &Told, reply: &Reply) -> Result<bool, RowError> {
    let Told::Replied(here) = told else {
        return Ok(false);
    };
    let (mut one, mut other) = (Words::new(alloc), Words::new(alloc));
    one.debug(here);
    other.debug(reply);
    Ok(one.end()?.as_str() == other.end()?.as_str())
}

// Whether each node was told its reply.
fn are_told(alloc: Global, noted: &[Noted], replies: &[Reply]) -> Result<bool, RowError> {
    for (one, reply) in noted.iter().zip(replies) {
        if !is_told(alloc, &one.told, reply)? {
            return Ok(false);
        }
    }
    Ok(noted.len() == replies.len())
}

// Whether the files hold this area.
fn holds(alloc: Global, base: &Files, area: &Area) -> Result<bool, RowError> {
    match open(alloc, base, &[]) {
        Ok(found) => {
            let is_same = same_area(area, found.loaded(), base.file(FileId::Jdt));
            let _disk = found.close();
            Ok(is_same)
        }
        Err(error) => Err(error),
    }
}

/// Whether the plain program answers what the nodes were told, and comes to the area of these files.
pub(crate) fn replays(alloc: Global, noted: &[Noted], base: &Files) -> Result<bool, RowError> {
    let list = all_asked(alloc, noted)?;
    let rules = rules_of(alloc)?;
    let empty = plain_area(alloc);
    if !may_run(&empty, rules.slots) {
        return Err(RowError::Unknown(0));
    }
    match run_slow(alloc, &rules, empty, list.as_slice()) {
        Ok((area, replies)) => {
            Ok(are_told(alloc, noted, replies.as_slice())? && holds(alloc, base, &area)?)
        }
        Err(_) => Err(RowError::OutOfMemory),
    }
}
