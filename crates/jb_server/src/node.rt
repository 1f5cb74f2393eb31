//! The work of one with a door.
ghost use Rattle.std.specs.Prelude.{◌≡◌, length};
ghost use Rattle.jb_page.specs.Pagers.{HasPager};
ghost use Rattle.jb_session.specs.Exchanges.{AreOf};
ghost use Rattle.jb_server.specs.Sessions.{reach_of};
ghost use Rattle.jb_server.specs.Workers.{HasServed};

use crate::service::Service;
use crate::worker::NodeSlot;
use jb_conf::Board;
use jb_disk::Disk;
use jb_host::{Accepted, Clock, Door};
use jb_page::Pages;
use jb_session::pages_are_asked;
use jb_shared::SharedArea;
use std::alloc::Global;
use std::sync::Wait;

/// One caller after another, until the door is shut or fails. Each is served so on the passes and with the pager, hung up, and counted.
pub(crate) fn serve_callers<T: Wait, D: Disk, R: Door, C: Clock>(
    rt: &T,
    alloc: Global,
    board: &Board,
    areas: &[SharedArea<D>],
    pages: &Pages,
    service: Service,
    slot: &mut NodeSlot<R, C>,
)
    requires areas { length areas.now ≡ length board.now.areas }
    requires ours { AreOf areas.now slot.old.passes.items }
    requires pager { HasPager pages.now (reach_of service board.now) slot.old.pager }
    ensures ours { AreOf areas.now slot.new.passes.items }
    ensures pager { HasPager pages.now (reach_of service board.now) slot.new.pager }
    ensures worked { HasServed R.gate C.readings board.now service slot.old slot.new }
{
    pages_are_asked();
    for _call in rt.forever() {
        match slot.door.accept() {
            Err(_) => {
                slot.tally.fail();
                return;
            }
            Ok(Accepted::Shut) => return,
            Ok(Accepted::Call(mut link)) => {
                let end = service.serve(
                    rt,
                    alloc,
                    board,
                    areas,
                    slot.passes.as_mut_slice(),
                    pages,
                    &mut slot.pager,
                    &mut link,
                    &mut slot.clock,
                );
                slot.door.hang_up(link);
                slot.tally.count(end);
            }
        }
    }
    unreachable!()
}
