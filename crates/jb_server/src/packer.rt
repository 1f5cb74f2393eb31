//! The work of a packer.
ghost use Rattle.std.specs.Prelude.{◌≡◌, ◌≤◌, length};
ghost use Rattle.std.specs.Option.{option_map};
ghost use Rattle.jb_limits.specs.declared.limits.TheConstants.{MOST_NAME_BYTES};
ghost use Rattle.jb_host.specs.Readings.{readings_after};
ghost use Rattle.jb_model.specs.declared.command.Command.{Command};
ghost use Rattle.jb_session.specs.Exchanges.{AreOf, AsksPass};
ghost use Rattle.jb_shared.specs.Areas.{IsOf};
ghost use Rattle.jb_server.specs.Backups.{HasTargets};
ghost use Rattle.jb_server.specs.Rounds.{AnswersRing, PacksArea, packs_with};
ghost use Rattle.jb_server.specs.Workers.{PackerHasWorked, packer_of};

use crate::telling::{Told, tell};
use crate::worker::PackSlot;
use jb_base::User;
use jb_disk::Disk;
use jb_host::{Bell, Clock, Ring};
use jb_model::{Command, Reply};
use jb_shared::{Pass, SharedArea, SharedError};
use std::alloc::Global;
use std::fmt::Write;
use std::sync::Wait;

/// Asks a pack as the next call of a pass, at the moment that the clock shows, which is read once. `has_settled` is then whether that has ended a doubt.
fn ask_pack<T: Wait, D: Disk, C: Clock>(
    rt: &T,
    alloc: Global,
    area: &SharedArea<D>,
    pass: &mut Pass,
    clock: &mut C,
    user: &User,
    has_settled: &mut bool,
) -> Result<Reply, SharedError>
    requires ours { IsOf area.now pass.old }
    requires name { length user.now.name ≤ MOST_NAME_BYTES }
    ensures ours { IsOf area.now pass.new }
    ensures clock { C.readings clock.new ≡ option_map readings_after (C.readings clock.old) }
    ensures asks { AsksPass (C.readings clock.old) user.now Command.Pack pass.old.known pass.new.known result }
{
    let moment = clock.now();
    let came = area.call(rt, alloc, pass, user, moment, &Command::Pack);
    *has_settled = pass.has_settled();
    came
}

/// Tells the operator what came of a pack of the area with this number, and before it whether that has ended a doubt.
fn tell_end<B: Bell>(
    bell: &mut B,
    number: u32,
    came: &Result<Reply, SharedError>,
    has_settled: bool,
)
    ensures { B.rings bell.new ≡ B.rings bell.old }
{
    if has_settled {
        tell(bell, number, Told::Settled);
    }
    tell(bell, number, Told::Packed(came));
}

impl<B: Bell, C: Clock, E: Disk> PackSlot<B, C, E> {
    /// Asks a pack of the area with this number, from 1, and tells the operator so.
    fn pack<T: Wait, D: Disk>(
        &mut self,
        rt: &T,
        alloc: Global,
        areas: &[SharedArea<D>],
        number: u32,
    ) -> Result<Reply, SharedError>
        requires some { 1 ≤ number }
        requires within { number ≤ length areas.now }
        requires ours { AreOf areas.now self.old.passes.items }
        requires name { length self.old.user.name ≤ MOST_NAME_BYTES }
        ensures ours { AreOf areas.now self.new.passes.items }
        ensures packs_area { PacksArea self.old.user number result (packer_of C.readings E.device self.old)
            (packer_of C.readings E.device self.new) }

        // All else stays.
        ensures targets { self.new.targets ≡ self.old.targets }
        ensures backups { self.new.backups ≡ self.old.backups }
        ensures node { self.new.node ≡ self.old.node }
        ensures bell { B.rings self.new.bell ≡ B.rings self.old.bell }
        ensures user { self.new.user ≡ self.old.user }
        ensures packs { self.new.packs ≡ self.old.packs }
    {
        let k = (number - 1) as usize;
        tell(&mut self.bell, number, Told::PackBegins);
        let mut has_settled = false;
        let came = ask_pack(
            rt,
            alloc,
            &areas[k],
            &mut self.passes[k],
            &mut self.clock,
            &self.user,
            &mut has_settled,
        );
        tell_end(&mut self.bell, number, &came, has_settled);
        came
    }

    /// Packs the area with this number, and backs it up, where that was not tried yet. A number that no area has is passed over.
    fn answer<T: Wait, D: Disk>(
        &mut self,
        rt: &T,
        alloc: Global,
        areas: &[SharedArea<D>],
        number: u32,
    ) -> Option<Result<Reply, SharedError>>
        requires ours { AreOf areas.now self.old.passes.items }
        requires name { length self.old.user.name ≤ MOST_NAME_BYTES }
        requires targets { HasTargets self.old.targets.items self.old.backups.items }
        ensures ours { AreOf areas.now self.new.passes.items }
        ensures targets { HasTargets self.new.targets.items self.new.backups.items }
        ensures count { length self.new.targets.items ≡ length self.old.targets.items }
        ensures answers { AnswersRing self.old.user number result (packer_of C.readings E.device self.old)
            (packer_of C.readings E.device self.new) }

        // All else stays.
        ensures node { self.new.node ≡ self.old.node }
        ensures bell { B.rings self.new.bell ≡ B.rings self.old.bell }
        ensures user { self.new.user ≡ self.old.user }
        ensures packs { self.new.packs ≡ self.old.packs }
    {
        if number == 0 || areas.len() < number as usize {
            return None;
        }
        let came = self.pack(rt, alloc, areas, number);
        self.back_up(rt, alloc, areas, number);
        Some(came)
    }
}

/// The number of packs that were done, where this came of one ring more.
fn count_pack(packs: u32, came: Option<Result<Reply, SharedError>>) -> u32
    ensures { result ≡ packs_with packs came }
{
    match came {
        Some(Ok(Reply::Packed { .. })) => packs.saturating_add(1),
        _ => packs,
    }
}

/// One ring after another, until the bell is shut.
pub(crate) fn serve_bell<T: Wait, D: Disk, B: Bell, C: Clock, E: Disk>(
    rt: &T,
    alloc: Global,
    areas: &[SharedArea<D>],
    slot: &mut PackSlot<B, C, E>,
)
    requires ours { AreOf areas.now slot.old.passes.items }
    requires name { length slot.old.user.name ≤ MOST_NAME_BYTES }
    requires targets { HasTargets slot.old.targets.items slot.old.backups.items }
    ensures ours { AreOf areas.now slot.new.passes.items }
    ensures targets { HasTargets slot.new.targets.items slot.new.backups.items }
    ensures worked { PackerHasWorked B.rings C.readings E.device slot.old slot.new }
{
    for _ring in rt.forever() {
        match slot.bell.next() {
            Ring::Shut => return,
            Ring::Pack(number) => {
                let came = slot.answer(rt, alloc, areas, number);
                slot.packs = count_pack(slot.packs, came);
            }
        }
    }
    unreachable!()
}
