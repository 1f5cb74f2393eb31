//! Looks: they see what was shown last, and wait for nobody.
ghost use Rattle.std.specs.Prelude.{◌≡◌, IfErr, IfOk, OnOk, OnErr, length};
ghost use Rattle.jb_index.specs.Answer.{answer_to, unread_to};
ghost use Rattle.jb_shared.specs.Areas.{IsOf};
ghost use Rattle.jb_shared.specs.Inside.{known_in};
ghost use Rattle.jb_shared.specs.Looks.{Looks, LooksAs, OfShown};
ghost use Rattle.jb_shared.specs.Passes.{turned_away};

use crate::parts::Parts;
use crate::{Pass, SharedArea};
use jb_base::{OutOfMemory, User};
use jb_disk::Disk;
use jb_state::{Answer, Barred, LookError, Question};

/// A look with the parts of a pass.
fn look(parts: Parts, user: &User, question: &Question) -> (Parts, Result<Answer, LookError>)
    ensures seat { result.0.seat ≡ parts.seat }
    ensures looks { LooksAs (known_in parts) (known_in result.0) result.1 }
    ensures answer { IfOk result.1 (λ answer.
        OfShown (known_in result.0) (λ index. answer ≡ answer_to index user.now question.now)) }
{
    let Parts { seat, reader } = parts;
    match reader.look() {
        Ok(sight) => {
            let answer = sight.value().ask(user, question);
            let reader = sight.leave();
            match answer {
                Ok(answer) => (Parts { seat, reader }, Ok(answer)),
                Err(OutOfMemory) => (Parts { seat, reader }, Err(LookError::OutOfMemory)),
            }
        }
        Err(reader) => (Parts { seat, reader }, Err(LookError::Barred)),
    }
}

/// A count with the parts of a pass.
fn count(parts: Parts, user: &User) -> (Parts, Result<u32, Barred>)
    ensures seat { result.0.seat ≡ parts.seat }
    ensures looks { OnOk result.1 (Looks (known_in parts) (known_in result.0)) }
    ensures barred { OnErr result.1 (known_in result.0 ≡ turned_away (known_in parts)) }
    ensures count { IfOk result.1 (λ count.
        OfShown (known_in result.0) (λ index. count ≡ length (unread_to index user.now))) }
{
    let Parts { seat, reader } = parts;
    match reader.look() {
        Ok(sight) => {
            let count = sight.value().unread_count(user);
            let reader = sight.leave();
            (Parts { seat, reader }, Ok(count))
        }
        Err(reader) => (Parts { seat, reader }, Err(Barred)),
    }
}

impl<D: Disk> SharedArea<D> {
    /// Answers a question of the user from what was shown last. It takes no turn and waits for nobody: an area in doubt
    /// answers as it was before the change that is in doubt.
    ///
    /// It is refused for want of memory, and where it is not let in, which the pass counts.
    pub fn look(
        &self,
        pass: &mut Pass,
        user: &User,
        question: &Question,
    ) -> Result<Answer, LookError>
        requires ours { IsOf self.now pass.old }
        ensures ours { IsOf self.now pass.new }
        ensures looks { LooksAs pass.old.known pass.new.known result }
        ensures answer { IfOk result (λ answer.
            OfShown pass.new.known (λ index. answer ≡ answer_to index user.now question.now)) }
    {
        let Some(parts) = pass.parts.take() else {
            unreachable!()
        };
        let (parts, answer) = look(parts, user, question);
        pass.parts = Some(parts);
        answer
    }

    /// How many messages the user has not read, by what was shown last. It takes no turn, waits for nobody and takes no memory.
    ///
    /// It is refused alone where it is not let in, which the pass counts.
    pub fn unread_count(&self, pass: &mut Pass, user: &User) -> Result<u32, Barred>
        requires ours { IsOf self.now pass.old }
        ensures ours { IsOf self.now pass.new }
        ensures looks { OnOk result (Looks pass.old.known pass.new.known) }
        ensures barred { OnErr result (pass.new.known ≡ turned_away pass.old.known) }
        ensures count { IfOk result (λ count.
            OfShown pass.new.known (λ index. count ≡ length (unread_to index user.now))) }
    {
        let Some(parts) = pass.parts.take() else {
            unreachable!()
        };
        let (parts, answer) = count(parts, user);
        pass.parts = Some(parts);
        answer
    }
}
