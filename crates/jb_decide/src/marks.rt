//! A user's mark is set.
ghost use Rattle.std.specs.Prelude.{◌≡◌, ℕ, ◌+◌, ◌≤◌, length};
ghost use Rattle.jb_bytes.specs.Crc.{jam_crc_of};
ghost use Rattle.jb_change.specs.Put.{IsShort};
ghost use Rattle.jb_state.specs.Places.{IsPlaceOf};
ghost use Rattle.jb_state.specs.Sound.{IsSound};
ghost use Rattle.jb_model.specs.declared.command.Command.TheVariants.{SetMark};
ghost use Rattle.jb_decide.specs.SetMark.{present_mark, raised, set_refusal};
ghost use Rattle.jb_decide.specs.StepOf.{IsStepOf};

use crate::denial::denied;
use crate::found::next_number;
use crate::outcome::Outcome;
use jb_access::Action;
use jb_base::{AreaRules, MOST_MARKS, User};
use jb_crc::jam_crc;
use jb_model::Reply;
use jb_state::{Change, Loaded, Mark};

/// Why the mark of a user who has this one is not set to the number.
fn refusal(loaded: &Loaded, present: Option<Mark>, number: u32) -> Option<Reply>
    requires { loaded.now.base + length loaded.now.slots ≤ 4_294_967_295 }
    ensures { result ≡ set_refusal loaded.now present number }
{
    if next_number(loaded) <= number {
        return Some(Reply::NoMessage { number });
    }
    if present.is_none() && MOST_MARKS as usize <= loaded.marks.as_slice().len() {
        return Some(Reply::MarksFull { marks: MOST_MARKS });
    }
    None
}

/// The mark at this number, of a user who has this one.
fn raised(present: Option<Mark>, user: &User, number: u32) -> Mark
    ensures { result ≡ raised present user.now number }
{
    let high = match present {
        Some(mark) => mark.high.max(number),
        None => number,
    };
    Mark {
        user_crc: jam_crc(user.name.as_slice()),
        user_id: user.id,
        last: number,
        high,
    }
}

/// What the setting of a user's mark to this number does. `present` is the first mark of the user's pair in the area, where
/// there is one, and `place` is where it stands.
pub(crate) fn set_mark(
    loaded: &Loaded,
    present: Option<Mark>,
    place: Option<usize>,
    rules: &AreaRules,
    user: &User,
    number: u32,
) -> Outcome
    requires sound { IsSound rules.now.slots loaded.now }
    requires present { present ≡ present_mark loaded.now user.now }
    requires placed { IsPlaceOf (jam_crc_of user.now.name) user.now.id loaded.now.marks place }
    ensures step { (moment : ℕ) → IsStepOf rules.now loaded.now user.now moment (SetMark number)
        (λ texts. result.reply) result.change }
    ensures short { IsShort result.change }
{
    if let Some(rule) = denied(user, rules, Action::List) {
        return Outcome::unchanged(Reply::Denied { rule });
    }
    if let Some(reply) = refusal(loaded, present, number) {
        return Outcome::unchanged(reply);
    }
    let mark = raised(present, user, number);
    Outcome {
        reply: Reply::Marked {
            last: mark.last,
            high: mark.high,
        },
        change: Change::Marked { place, mark },
    }
}
