//! The backup of an area behind its first ring.
ghost use Rattle.std.specs.Prelude.{◌≡◌, ◌≤◌, IsSome, is_some, length};
ghost use Rattle.std.specs.Option.{option_map};
ghost use Rattle.jb_session.specs.Exchanges.{AreOf};
ghost use Rattle.jb_shared.specs.Areas.{IsOf};
ghost use Rattle.jb_server.specs.Backups.{BacksUpOn, BacksUpOnce, HasTargets, due_at};
ghost use Rattle.jb_server.specs.Workers.{packer_of};

use crate::telling::{Told, tell};
use crate::worker::PackSlot;
use jb_backup::BackupError;
use jb_disk::Disk;
use jb_host::{Bell, Clock};
use jb_shared::{Backed, Pass, SharedArea};
use std::alloc::Global;
use std::sync::Wait;

/// Backs an area up onto a target that is there.
fn back_up_onto<T: Wait, D: Disk, E: Disk>(
    rt: &T,
    alloc: Global,
    area: &SharedArea<D>,
    pass: &mut Pass,
    target: &mut Option<E>,
) -> Result<Backed, BackupError>
    requires ours { IsOf area.now pass.old }
    requires there { IsSome target.old }
    ensures ours { IsOf area.now pass.new }
    ensures there { IsSome target.new }
    ensures backs { BacksUpOn (option_map E.device target.old) (option_map E.device target.new)
        pass.old.known pass.new.known result }
{
    match target {
        Some(onto) => area.backup(rt, alloc, pass, onto),
        None => unreachable!(),
    }
}

impl<B: Bell, C: Clock, E: Disk> PackSlot<B, C, E> {
    /// Whether there is a target at this place, onto which no backup was tried yet.
    fn is_due(&self, k: usize) -> bool
        requires { HasTargets self.now.targets.items self.now.backups.items }
        ensures { result ≡ is_some (due_at k self.now.targets.items self.now.backups.items) }
    {
        k < self.targets.len() && self.backups[k].is_none()
    }

    /// Backs the area with this number up, where it has a target onto which no backup was tried yet, and tells the operator so.
    pub(crate) fn back_up<T: Wait, D: Disk>(
        &mut self,
        rt: &T,
        alloc: Global,
        areas: &[SharedArea<D>],
        number: u32,
    )
        requires some { 1 ≤ number }
        requires within { number ≤ length areas.now }
        requires ours { AreOf areas.now self.old.passes.items }
        requires targets { HasTargets self.old.targets.items self.old.backups.items }
        ensures ours { AreOf areas.now self.new.passes.items }
        ensures targets { HasTargets self.new.targets.items self.new.backups.items }
        ensures count { length self.new.targets.items ≡ length self.old.targets.items }
        ensures backs { BacksUpOnce number (packer_of C.readings E.device self.old)
            (packer_of C.readings E.device self.new) }

        // All else stays.
        ensures node { self.new.node ≡ self.old.node }
        ensures bell { B.rings self.new.bell ≡ B.rings self.old.bell }
        ensures user { self.new.user ≡ self.old.user }
        ensures packs { self.new.packs ≡ self.old.packs }
    {
        let k = (number - 1) as usize;
        if !self.is_due(k) {
            return;
        }
        tell(&mut self.bell, number, Told::BackupBegins);
        let came = back_up_onto(
            rt,
            alloc,
            &areas[k],
            &mut self.passes[k],
            &mut self.targets[k],
        );
        tell(&mut self.bell, number, Told::BackedUp(&came));
        self.backups[k] = Some(came);
    }
}
