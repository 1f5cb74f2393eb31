//! A session of a news reader.
ghost use Rattle.std.specs.Prelude.{◌≡◌, length};
ghost use Rattle.jb_page.specs.Pagers.{HasPager};
ghost use Rattle.jb_session.specs.Ends.{session_end};
ghost use Rattle.jb_session.specs.Exchanges.{AreOf, node_with};
ghost use Rattle.jb_session.specs.Served.{ServedNews};

use crate::end::{NewsEnd, SessionEnd};
use crate::session::serve_as;
use jb_conf::Board;
use jb_disk::Disk;
use jb_host::{Clock, Link};
use jb_news_talk::{NewsTalk, news_is_never_refused};
use jb_page::{Pager, Pages};
use jb_shared::{Pass, SharedArea};
use std::alloc::Global;
use std::sync::Wait;

/// Serves one news reader, as [`serve_as`] does. There is no log-in, and pages are neither sent nor taken.
pub fn serve_news<R: Wait, D: Disk, L: Link, C: Clock>(
    rt: &R,
    alloc: Global,
    board: &Board,
    areas: &[SharedArea<D>],
    passes: &mut [Pass],
    pages: &Pages,
    pager: &mut Option<Pager>,
    link: &mut L,
    clock: &mut C,
) -> NewsEnd
    requires areas { length areas.now ≡ length board.now.areas }
    requires ours { AreOf areas.now passes.old }
    requires pager { HasPager pages.now 0 pager.old }
    ensures ours { AreOf areas.now passes.new }
    ensures pager { HasPager pages.now 0 pager.new }
    ensures served { ServedNews board.now (L.wire link.old) (node_with (C.readings clock.old) passes.old pager.old)
        (session_end result) (L.wire link.new) (node_with (C.readings clock.new) passes.new pager.new) }
{
    news_is_never_refused();
    match serve_as::<NewsTalk, R, D, L, C>(
        rt, alloc, board, areas, passes, pages, pager, link, clock,
    ) {
        SessionEnd::Quit => NewsEnd::Quit,
        SessionEnd::Hangup => NewsEnd::Hangup,
        SessionEnd::LoginRefused => unreachable!(),
        SessionEnd::LinkFault => NewsEnd::LinkFault,
        SessionEnd::Spent => NewsEnd::Spent,
        SessionEnd::OutOfMemory => NewsEnd::OutOfMemory,
    }
}
