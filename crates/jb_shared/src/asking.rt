//! Calls on a pass.
ghost use Rattle.std.specs.Prelude.{◌≡◌, ◌≤◌, length};
ghost use Rattle.jb_limits.specs.declared.limits.TheConstants.{MOST_NAME_BYTES};
ghost use Rattle.jb_turn.specs.Seats.{id_of, resting_row, resting_turn};
ghost use Rattle.jb_shared.specs.Areas.{IsOf};
ghost use Rattle.jb_shared.specs.Calls.{Asks, Calls};
ghost use Rattle.jb_shared.specs.Inside.{known_in};

use crate::call::Call;
use crate::calling::perform;
use crate::entering::{Entered, end, leave};
use crate::parts::Parts;
use crate::{Pass, Refusal, SharedArea, SharedError};
use jb_base::{MOST_ENTRIES, User};
use jb_disk::Disk;
use jb_model::{Command, Reply};
use std::alloc::Global;
use std::sync::Wait;

impl<D: Disk> SharedArea<D> {
    /// A call in one turn, with the parts of a pass of this area.
    fn ask<R: Wait>(
        &self,
        rt: &R,
        alloc: Global,
        parts: Parts,
        call: Call<'_>,
        has_settled: &mut bool,
    ) -> (Parts, Result<Reply, SharedError>)
        requires ours { resting_turn parts.seat ≡ id_of self.now.turn }
        requires name { length call.user.now.name ≤ MOST_NAME_BYTES }
        ensures ours { resting_turn result.0.seat ≡ id_of self.now.turn }
        ensures mark { (resting_row result.0.seat).opening ≡ (resting_row parts.seat).opening }
        ensures asks { Asks (known_in parts) (known_in result.0) call.entry.user.now
            call.entry.moment call.entry.command.now result.1 }
    {
        let Entered {
            mut seat,
            held,
            reader,
        } = self.enter(rt, parts);
        if held.count >= MOST_ENTRIES {
            let parts = end(
                &self.turn,
                seat,
                held,
                reader,
                call.user,
                Some(Refusal::Spent),
            );
            return (parts, Err(SharedError::RunSpent));
        }
        let was_in_doubt = held.state.area.in_doubt();
        let (held, answer) = perform(rt, alloc, &self.turn, &mut seat, held, call);
        *has_settled = was_in_doubt && !held.state.area.in_doubt();
        (
            leave(&self.turn, seat, held, reader, call.user, None),
            answer,
        )
    }

    /// A call with the parts of a pass of this area. A pack goes by steps first.
    fn call_with<R: Wait>(
        &self,
        rt: &R,
        alloc: Global,
        parts: Parts,
        call: Call<'_>,
        has_settled: &mut bool,
    ) -> (Parts, Result<Reply, SharedError>)
        requires ours { resting_turn parts.seat ≡ id_of self.now.turn }
        requires name { length call.user.now.name ≤ MOST_NAME_BYTES }
        ensures ours { resting_turn result.0.seat ≡ id_of self.now.turn }
        ensures mark { (resting_row result.0.seat).opening ≡ (resting_row parts.seat).opening }
        ensures calls { Calls (known_in parts) (known_in result.0) call.entry.user.now
            call.entry.moment call.entry.command.now result.1 }
    {
        let Command::Pack = call.command else {
            return self.ask(rt, alloc, parts, call, has_settled);
        };
        let (parts, copied) = self.copy_by_steps(rt, alloc, parts, call.user, call.moment);
        match copied {
            Ok(()) => self.ask(rt, alloc, parts, call, has_settled),
            Err(error) => (parts, Err(error)),
        }
    }

    /// Asks a command as the next call of the pass's node, at this moment in seconds since 1970. It waits for the turn.
    ///
    /// An area in doubt is reopened first. What came of the call is recorded with its reply, or as stopped by the device; a
    /// call that wants memory leaves no entry of its own, and one of a history that is spent none at all. What was done is seen by
    /// the looks that come later, whoever looks, and by those of this pass in any case.
    ///
    /// A pack goes by steps. Each takes the turn, copies texts of at most `PACK_STEP_BYTES` of `jb_area` into .NDT and gives the
    /// turn back, so that the calls of others go in between. It takes memory for these bytes, which it gives back, and 12 bytes a
    /// slot, which go with the pack. The turn behind the steps packs the area as it is then, and copies what is left; those who
    /// pack an area at once share the copies. An area in doubt has no steps: one turn ends the doubt and packs.
    ///
    /// A step that the device stops ends the call, which is recorded as stopped, in doubt without a change: .NDT may hold anything
    /// then, nothing else is other than before, and the next call reopens the area, which empties .NDT. A step that wants memory
    /// ends the call without an entry; what was copied stays for the next pack.
    pub fn call<R: Wait>(
        &self,
        rt: &R,
        alloc: Global,
        pass: &mut Pass,
        user: &User,
        moment: u32,
        command: &Command,
    ) -> Result<Reply, SharedError>
        requires ours { IsOf self.now pass.old }
        requires name { length user.now.name ≤ MOST_NAME_BYTES }
        ensures ours { IsOf self.now pass.new }
        ensures calls { Calls pass.old.known pass.new.known user.now moment command.now result }
    {
        let call = Call {
            user,
            moment,
            command,
        };
        let Some(parts) = pass.parts.take() else {
            unreachable!()
        };
        let mut has_settled = false;
        let (parts, answer) = self.call_with(rt, alloc, parts, call, &mut has_settled);
        pass.parts = Some(parts);
        pass.has_settled = has_settled;
        answer
    }
}
