//! A user's mark is set.
ghost use Rattle.std.specs.Prelude.{◌≡◌, IfOk, OnOk};
ghost use Rattle.jb_state.specs.Marks.{is_mark, mark_of, with_mark};
ghost use Rattle.jb_model.specs.SetMark.{mark_at, mark_refusal, set_mark_step};
ghost use Rattle.jb_state.specs.Visible.{mark_of_user};
ghost use Rattle.jb_plain.specs.Seen.{seen_state};

use crate::held::PlainState;
use crate::rule::denied;
use jb_access::Action;
use jb_base::{AreaRules, MOST_MARKS, OutOfMemory, User};
use jb_crc::jam_crc;
use jb_model::Reply;
use jb_state::Mark;

/// Whether the mark is that of this pair.
fn is_pair(mark: &Mark, user_crc: u32, user_id: u32) -> bool
    ensures { result ≡ is_mark user_crc user_id mark.now }
{
    mark.user_crc == user_crc && mark.user_id == user_id
}

/// The first mark of a pair.
fn first_mark(marks: &[Mark], user_crc: u32, user_id: u32) -> Option<Mark>
    ensures { result ≡ mark_of user_crc user_id marks.now }
{
    for mark in marks {
        if is_pair(mark, user_crc, user_id) {
            return Some(*mark);
        }
    }
    None
}

/// Puts a mark in the place of the first of its pair, or last.
fn put_mark(marks: &mut Vec<Mark>, mark: Mark) -> Result<(), OutOfMemory>
    ensures { OnOk result (marks.new.items ≡ with_mark mark marks.old.items) }
{
    for place in 0..marks.len() {
        let other = marks[place];
        if is_pair(&other, mark.user_crc, mark.user_id) {
            marks[place] = mark;
            return Ok(());
        }
    }
    marks.push(mark)?;
    Ok(())
}

/// The user's mark.
fn user_mark(state: &PlainState, user: &User) -> Option<Mark>
    ensures { result ≡ mark_of_user user.now (seen_state state.now) }
{
    let user_crc = jam_crc(user.name.as_slice());
    first_mark(&state.marks, user_crc, user.id)
}

/// Why a mark is not set.
fn refusal(state: &PlainState, user: &User, number: u32) -> Option<Reply>
    ensures { result ≡ mark_refusal (seen_state state.now) user.now number }
{
    if state.next() <= number {
        return Some(Reply::NoMessage { number });
    }
    if user_mark(state, user).is_none() && MOST_MARKS as usize <= state.marks.len() {
        return Some(Reply::MarksFull { marks: MOST_MARKS });
    }
    None
}

/// The user's mark at this number.
fn raised(state: &PlainState, user: &User, number: u32) -> Mark
    ensures { result ≡ mark_at (seen_state state.now) user.now number }
{
    let high = match user_mark(state, user) {
        Some(mark) => mark.high.max(number),
        None => number,
    };
    Mark {
        user_crc: jam_crc(user.name.as_slice()),
        user_id: user.id,
        last: number,
        high,
    }
}

/// The user's mark is set to this number.
pub(crate) fn set_mark(
    rules: &AreaRules,
    state: &mut PlainState,
    user: &User,
    number: u32,
) -> Result<Reply, OutOfMemory>
    ensures { IfOk result (λ reply. record { reply = reply; state = seen_state state.new }
        ≡ set_mark_step rules.now (seen_state state.old) user.now number) }
{
    if let Some(rule) = denied(user, rules, Action::List) {
        return Ok(Reply::Denied { rule });
    }
    if let Some(refusal) = refusal(state, user, number) {
        return Ok(refusal);
    }
    let mark = raised(state, user, number);
    put_mark(&mut state.marks, mark)?;
    Ok(Reply::Marked {
        last: mark.last,
        high: mark.high,
    })
}
