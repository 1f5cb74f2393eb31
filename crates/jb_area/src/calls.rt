//! The calls of an open area, each decided and begun, and then finished.
ghost use Rattle.std.specs.Prelude.{◌≡◌, ◌≤◌, ℕ, length, IfErr, Ok};

use crate::OpenArea;
use crate::copying::copy_some;
use crate::places::{nothing_pending, put_redo, put_stage};
use crate::stage::Stage;
use jb_base::{OutOfMemory, TEXTS_CEILING, User};
use jb_decide::{
    AreaError, Decided, LentDraft, LentEdit, decide_edit, decide_kill, decide_mark, decide_pack,
    decide_peek, decide_post, decide_read, decide_relink, refuse_pack,
};
use jb_disk::{Disk, Redo};
use jb_journal::Stopped;
use jb_model::Reply;
use jb_pack::{PACK_STEP_BYTES, PackError};
use std::alloc::Global;

/// A budget for all texts that an area may have.
const ALL_TEXTS: u32 = TEXTS_CEILING as u32;

impl<D: Disk> OpenArea<D> {
    ghost use Rattle.std.specs.Prelude.{List, IfOk, OnOk, true, false};
    ghost use Rattle.jb_limits.specs.declared.limits.TheConstants.{MOST_NAME_BYTES, TEXTS_CEILING};
    ghost use Rattle.jb_base.specs.declared.user.User.{User};
    ghost use Rattle.jb_decide.specs.Draft.{draft_of, edit_of, post_of};
    ghost use Rattle.jb_decide.specs.Errors.{is_area_fault};
    ghost use Rattle.jb_decide.specs.Packs.{MayPack, is_pack_refused};
    ghost use Rattle.jb_model.specs.declared.command.Command.TheVariants.{Kill, Pack, Peek, Read, Relink, SetMark};
    ghost use Rattle.jb_pack.specs.declared.run.TheConstants.{PACK_STEP_BYTES};
    ghost use Rattle.jb_state.specs.Packed.{texts_size};
    ghost use Rattle.jb_area.specs.Area.{HasBegun, HasNoChange, IsResting, copied_of, loaded_of, rules_of, small_redo_of};
    ghost use Rattle.jb_area.specs.Calls.{AnswersAs, BeginsCall, BeginsReading, EndsCall, HasEditedAlone, HasRest, MeetsCall, StartsAs, StepsPack, large_after};
    ghost use Rattle.jb_area.specs.Copying.{AreAllCopied, HasCopiedSome};

    /// Begins a kill of the message with this number. It makes no device call, and takes no memory.
    pub(crate) fn begin_kill(&mut self, user: &User, number: u32)
        requires rests { HasRest D.device self.old }
        ensures { (moment : ℕ) → BeginsCall D.device self.old self.new user.now moment (Kill number) (Ok tt) }
    {
        let decided = decide_kill(&self.held, &self.rules, &mut self.redo, user, number);
        put_stage(
            &mut self.stage,
            Stage::Begun {
                reply: decided.reply,
                pending: decided.pending,
            },
        );
    }

    /// Begins the setting of the user's mark to this number. It makes no device call, and takes no memory.
    pub(crate) fn begin_mark(&mut self, user: &User, number: u32)
        requires rests { HasRest D.device self.old }
        ensures { (moment : ℕ) → BeginsCall D.device self.old self.new user.now moment
            (SetMark number) (Ok tt) }
    {
        let decided = decide_mark(&self.held, &self.rules, &mut self.redo, user, number);
        put_stage(
            &mut self.stage,
            Stage::Begun {
                reply: decided.reply,
                pending: decided.pending,
            },
        );
    }

    /// Kills the message with this number, which its sender, its receiver and the sysop may. Its number stays taken. Takes no
    /// memory, and so fails by a fault alone.
    pub fn kill(&mut self, user: &User, number: u32) -> Result<Reply, AreaError>
        requires rests { HasRest D.device self.old }
        ensures meets { (moment : ℕ) → MeetsCall D.device self.old self.new user.now moment
            (Kill number) result }
        ensures fault { IfErr result (λ error. error ≡ AreaError.StoreFault) }
    {
        self.begin_kill(user, number);
        self.done()
    }

    /// Sets the user's mark to this number; a user who has none gets one. Takes no memory, and so fails by a fault alone.
    pub fn set_mark(&mut self, user: &User, number: u32) -> Result<Reply, AreaError>
        requires rests { HasRest D.device self.old }
        ensures meets { (moment : ℕ) → MeetsCall D.device self.old self.new user.now moment
            (SetMark number) result }
        ensures fault { IfErr result (λ error. error ≡ AreaError.StoreFault) }
    {
        self.begin_mark(user, number);
        self.done()
    }

    /// Begins what was decided, with a redo of its own or without one; after a fault of the device the area is in doubt.
    fn start(
        &mut self,
        decided: Result<Decided, AreaError>,
        large: Option<Redo>,
    ) -> Result<(), AreaError>
        ensures stage { StartsAs decided self.old.stage self.new.stage }
        ensures answer { AnswersAs decided result }
        ensures disk { self.new.disk ≡ self.old.disk }
        ensures rules { self.new.rules ≡ self.old.rules }
        ensures held { self.new.held ≡ self.old.held }
        ensures packer { self.new.packer ≡ self.old.packer }
        ensures redo { self.new.redo ≡ self.old.redo }
        ensures commits { self.new.commits ≡ self.old.commits }
        ensures packs { self.new.packs ≡ self.old.packs }
        ensures large { self.new.large ≡ large_after decided large self.old.large }
    {
        match decided {
            Ok(Decided { reply, pending }) => {
                put_redo(&mut self.large, large);
                put_stage(&mut self.stage, Stage::Begun { reply, pending });
                Ok(())
            }
            Err(AreaError::StoreFault) => {
                put_stage(
                    &mut self.stage,
                    Stage::Doubtful {
                        stopped: Stopped::Early,
                        pending: nothing_pending(),
                    },
                );
                Err(AreaError::StoreFault)
            }
            Err(AreaError::OutOfMemory) => Err(AreaError::OutOfMemory),
        }
    }

    /// Begins a reading of the message with this number.
    pub(crate) fn begin_read(
        &mut self,
        alloc: Global,
        user: &User,
        moment: u32,
        number: u32,
    ) -> Result<(), AreaError>
        requires rests { HasRest D.device self.old }
        ensures { BeginsCall D.device self.old self.new user.now moment (Read number) result }
    {
        let decided = decide_read(
            alloc,
            &mut self.disk,
            &self.held,
            &self.rules,
            &mut self.redo,
            user,
            moment,
            number,
        );
        self.start(decided, None)
    }

    /// Begins a look at the message with this number.
    pub(crate) fn begin_peek(
        &mut self,
        alloc: Global,
        user: &User,
        number: u32,
    ) -> Result<(), AreaError>
        requires rests { HasRest D.device self.old }
        ensures { (moment : ℕ) → BeginsCall D.device self.old self.new user.now moment (Peek number) result }
    {
        let decided = decide_peek(alloc, &mut self.disk, &self.held, &self.rules, user, number);
        self.start(decided, None)
    }

    /// Reads the message with this number, and counts the reading; its receiver receives it at this moment, in seconds since
    /// 1970. One device read, and none where the text is empty, beside those of a commit.
    pub fn read(
        &mut self,
        alloc: Global,
        user: &User,
        moment: u32,
        number: u32,
    ) -> Result<Reply, AreaError>
        requires rests { HasRest D.device self.old }
        ensures meets { MeetsCall D.device self.old self.new user.now moment (Read number) result }
    {
        match self.begin_read(alloc, user, moment, number) {
            Ok(()) => self.done(),
            Err(error) => Err(error),
        }
    }

    /// Looks at the message with this number, and changes nothing. One device call, and none where the text is empty.
    pub fn peek(&mut self, alloc: Global, user: &User, number: u32) -> Result<Reply, AreaError>
        requires rests { HasRest D.device self.old }
        ensures meets { (moment : ℕ) → MeetsCall D.device self.old self.new user.now moment
            (Peek number) result }
    {
        match self.begin_peek(alloc, user, number) {
            Ok(()) => self.done(),
            Err(error) => Err(error),
        }
    }

    /// Begins a post. It makes no device call.
    pub(crate) fn begin_post(
        &mut self,
        alloc: Global,
        user: &User,
        moment: u32,
        draft: LentDraft<'_>,
    ) -> Result<(), AreaError>
        requires rests { HasRest D.device self.old }
        requires name { length user.now.name ≤ MOST_NAME_BYTES }
        ensures begins { BeginsCall D.device self.old self.new user.now moment
            (post_of (draft_of draft.entry)) result }
        ensures room { small_redo_of self.new ≡ small_redo_of self.old }
    {
        let mut large = Redo::new(alloc);
        let decided = match decide_post(
            alloc,
            &self.held,
            &self.rules,
            &mut large,
            user,
            moment,
            draft,
        ) {
            Ok(decided) => Ok(decided),
            Err(OutOfMemory) => Err(AreaError::OutOfMemory),
        };
        self.start(decided, Some(large))
    }

    /// Posts a message to this name: under the next number, behind the others. `reply_to` is the number that it answers, or 0;
    /// `moment` is in seconds since 1970.
    pub fn post(
        &mut self,
        alloc: Global,
        user: &User,
        moment: u32,
        draft: LentDraft<'_>,
    ) -> Result<Reply, AreaError>
        requires rests { HasRest D.device self.old }
        requires name { length user.now.name ≤ MOST_NAME_BYTES }
        ensures meets { MeetsCall D.device self.old self.new user.now moment
            (post_of (draft_of draft.entry)) result }
        ensures room { small_redo_of self.new ≡ small_redo_of self.old }
    {
        match self.begin_post(alloc, user, moment, draft) {
            Ok(()) => self.done(),
            Err(error) => Err(error),
        }
    }

    /// Begins an edit. It makes no device call.
    pub(crate) fn begin_edit(
        &mut self,
        alloc: Global,
        user: &User,
        edit: LentEdit<'_>,
    ) -> Result<(), AreaError>
        requires rests { HasRest D.device self.old }
        ensures begins { (moment : ℕ) → BeginsCall D.device self.old self.new user.now moment
            (edit_of edit.entry) result }
        ensures room { small_redo_of self.new ≡ small_redo_of self.old }
    {
        let mut large = Redo::new(alloc);
        let decided = match decide_edit(alloc, &self.held, &self.rules, &mut large, user, edit) {
            Ok(decided) => Ok(decided),
            Err(OutOfMemory) => Err(AreaError::OutOfMemory),
        };
        self.start(decided, Some(large))
    }

    /// Puts this subject and this text in the place of those of the message with this number, which its sender and the sysop
    /// may. Its header and its text then stand behind the others; the bytes of the old ones stay in the files until a pack.
    /// The memory that it takes goes with it.
    pub fn edit(
        &mut self,
        alloc: Global,
        user: &User,
        edit: LentEdit<'_>,
    ) -> Result<Reply, AreaError>
        requires rests { HasRest D.device self.old }
        ensures meets { (moment : ℕ) → MeetsCall D.device self.old self.new user.now moment
            (edit_of edit.entry) result }
        ensures alone { OnOk result ((texts : List ℕ) → IsResting D.device self.old texts
            → HasEditedAlone D.device edit.entry.number self.old self.new texts) }
        ensures room { small_redo_of self.new ≡ small_redo_of self.old }
    {
        match self.begin_edit(alloc, user, edit) {
            Ok(()) => self.done(),
            Err(error) => Err(error),
        }
    }

    /// Begins a relink. It makes no device call.
    pub(crate) fn begin_relink(&mut self, alloc: Global, user: &User) -> Result<(), AreaError>
        requires rests { HasRest D.device self.old }
        ensures begins { (moment : ℕ) → BeginsCall D.device self.old self.new user.now moment Relink result }
        ensures room { small_redo_of self.new ≡ small_redo_of self.old }
    {
        let mut large = Redo::new(alloc);
        let decided = match decide_relink(alloc, &self.held, &self.rules, &mut large, user) {
            Ok(decided) => Ok(decided),
            Err(OutOfMemory) => Err(AreaError::OutOfMemory),
        };
        self.start(decided, Some(large))
    }

    /// Computes the reply links of all messages anew, and writes them where they are other ones; of a linked area nothing is
    /// written. The memory that it takes goes with it.
    pub fn relink(&mut self, alloc: Global, user: &User) -> Result<Reply, AreaError>
        requires rests { HasRest D.device self.old }
        ensures meets { (moment : ℕ) → MeetsCall D.device self.old self.new user.now moment Relink result }
        ensures room { small_redo_of self.new ≡ small_redo_of self.old }
    {
        match self.begin_relink(alloc, user) {
            Ok(()) => self.done(),
            Err(error) => Err(error),
        }
    }

    /// Copies some of the texts that are left for a pack. Answers whether a text is left. After a fault of the device the area
    /// is in doubt without a change.
    fn copy(&mut self, alloc: Global, budget: u32) -> Result<bool, AreaError>
        requires rests { HasRest D.device self.old }
        requires fits { texts_size (loaded_of self.old).slots ≤ TEXTS_CEILING }
        ensures steps { StepsPack D.device self.old self.new result }
        ensures copied { IfOk result (HasCopiedSome budget (loaded_of self.old).slots
            (copied_of self.old) (copied_of self.new)) }
    {
        match copy_some(
            alloc,
            &mut self.disk,
            &mut self.packer,
            self.held.loaded(),
            budget,
        ) {
            Ok(more) => Ok(more),
            Err(PackError::StoreFault) => {
                put_stage(&mut self.stage, Stage::Copying);
                Err(AreaError::StoreFault)
            }
            Err(PackError::OutOfMemory) => Err(AreaError::OutOfMemory),
        }
    }

    /// A step of a pack: copies some of the texts into .NDT, whole ones in the order of their numbers, as long as together they
    /// have no more bytes than the budget, and syncs .NDT. Answers whether a text is left. Where a pack would be refused it
    /// answers false and changes nothing.
    ///
    /// Between two steps the area may be changed by any calls; those who pack it share the copies. A pack that comes then
    /// copies what is left, so a crash or a fault costs no more than the copies. It takes memory for a part of the texts,
    /// `PACK_STEP_BYTES`, which it gives back, and 12 bytes a slot, which go with the pack.
    pub fn pack_some(&mut self, alloc: Global, user: &User, budget: u32) -> Result<bool, AreaError>
        requires rests { HasRest D.device self.old }
        requires budget { PACK_STEP_BYTES ≤ budget }
        ensures steps { StepsPack D.device self.old self.new result }

        // Where a pack would be refused nothing is done.
        ensures refused { (texts : List ℕ) → IsResting D.device self.old texts
            → is_pack_refused (rules_of self.old) texts (loaded_of self.old) user.now ≡ true
            → (result ≡ Ok false) × (self.new ≡ self.old) }

        // Else texts are copied.
        ensures copied { IfOk result (λ more. (texts : List ℕ) → IsResting D.device self.old texts
            → is_pack_refused (rules_of self.old) texts (loaded_of self.old) user.now ≡ false
            → HasCopiedSome budget (loaded_of self.old).slots (copied_of self.old)
            (copied_of self.new) more) }
    {
        match refuse_pack(&self.held, &self.rules, user) {
            Some(_reply) => Ok(false),
            None => self.copy(alloc, budget),
        }
    }

    /// Copies all texts that are left, at once, or where .NDT begins anew in two steps.
    fn copy_all(&mut self, alloc: Global) -> Result<bool, AreaError>
        requires rests { HasRest D.device self.old }
        requires fits { texts_size (loaded_of self.old).slots ≤ TEXTS_CEILING }
        ensures steps { StepsPack D.device self.old self.new result }
        ensures all { OnOk result (AreAllCopied (loaded_of self.new).slots (copied_of self.new)) }
    {
        let mut more = true;
        while more {
            match self.copy(alloc, ALL_TEXTS) {
                Ok(left) => more = left,
                Err(error) => return Err(error),
            }
        }
        Ok(more)
    }

    /// Begins a pack of which each text is copied.
    fn begin_copied(&mut self, alloc: Global) -> Result<(), AreaError>
        requires rests { HasRest D.device self.old }
        requires all { AreAllCopied (loaded_of self.old).slots (copied_of self.old) }
        ensures begins { (user : User) (moment : ℕ) → MayPack (rules_of self.old) (loaded_of self.old) user
            → BeginsReading D.device self.old self.new user moment Pack result }
        ensures changes { OnOk result (texts_size (loaded_of self.old).slots ≤ TEXTS_CEILING
            → HasNoChange self.new → ⊥) }
        ensures room { small_redo_of self.new ≡ small_redo_of self.old }
    {
        let mut large = Redo::new(alloc);
        let Some(packer) = &self.packer else {
            unreachable!()
        };
        let decided = match decide_pack(alloc, &self.disk, &self.held, packer, &mut large) {
            Ok(decided) => Ok(decided),
            Err(OutOfMemory) => Err(AreaError::OutOfMemory),
        };
        self.start(decided, Some(large))
    }

    /// Begins a pack: copies the texts that are left, and takes all else that it needs.
    pub(crate) fn begin_pack(&mut self, alloc: Global, user: &User) -> Result<(), AreaError>
        requires rests { HasRest D.device self.old }
        ensures begins { (moment : ℕ) → BeginsCall D.device self.old self.new user.now moment Pack result }
        ensures room { small_redo_of self.new ≡ small_redo_of self.old }
    {
        match refuse_pack(&self.held, &self.rules, user) {
            Some(reply) => {
                put_stage(
                    &mut self.stage,
                    Stage::Begun {
                        reply,
                        pending: nothing_pending(),
                    },
                );
                Ok(())
            }
            None => match self.copy_all(alloc) {
                Ok(_none) => self.begin_copied(alloc),
                Err(error) => Err(error),
            },
        }
    }

    /// Packs the area: killed messages are dropped, the numbers below the lowest live one are cut off, and headers, index and
    /// texts are written anew without a gap, with the reply links computed anew. Every live message keeps its number. The texts
    /// that [`pack_some`](OpenArea::pack_some) left are copied into .NDT first, in parts of `PACK_STEP_BYTES` with one sync behind
    /// them, so .JNL is short however long they are. The memory that it takes, that of the new headers and index, of one part and
    /// of the copies, goes with it.
    pub fn pack(&mut self, alloc: Global, user: &User) -> Result<Reply, AreaError>
        requires rests { HasRest D.device self.old }
        ensures meets { (moment : ℕ) → MeetsCall D.device self.old self.new user.now moment Pack result }
        ensures room { small_redo_of self.new ≡ small_redo_of self.old }
    {
        match self.begin_pack(alloc, user) {
            Ok(()) => self.done(),
            Err(error) => Err(error),
        }
    }

    /// Finishes the call that is begun.
    pub(crate) fn done(&mut self) -> Result<Reply, AreaError>
        requires begun { HasBegun D.device self.old }
        ensures { EndsCall D.device is_area_fault self.old self.new result }
    {
        match self.finish() {
            Ok(reply) => Ok(reply),
            Err(_stopped) => Err(AreaError::StoreFault),
        }
    }
}
