//! How a caller is served.
ghost use Rattle.std.specs.Prelude.{◌≡◌, length};
ghost use Rattle.jb_page.specs.Pagers.{HasPager};
ghost use Rattle.jb_session.specs.Exchanges.{AreOf, node_with};
ghost use Rattle.jb_server.specs.Sessions.{ServedAs, reach_of};

use jb_conf::Board;
use jb_disk::Disk;
use jb_host::{Clock, Link};
use jb_page::{Pager, Pages};
use jb_session::{SessionEnd, serve_news, serve_session};
use jb_shared::{Pass, SharedArea};
use std::alloc::Global;
use std::sync::Wait;

/// How callers are served.
#[derive(Clone, Copy)]
pub enum Service {
    /// By the menus, over Telnet.
    Menus,
    /// As readers of news.
    News,
}

impl Service {
    /// Serves one caller so, on these passes and with this pager.
    pub(crate) fn serve<T: Wait, D: Disk, L: Link, C: Clock>(
        self,
        rt: &T,
        alloc: Global,
        board: &Board,
        areas: &[SharedArea<D>],
        passes: &mut [Pass],
        pages: &Pages,
        pager: &mut Option<Pager>,
        link: &mut L,
        clock: &mut C,
    ) -> SessionEnd
        requires areas { length areas.now ≡ length board.now.areas }
        requires ours { AreOf areas.now passes.old }
        requires pager { HasPager pages.now (reach_of self board.now) pager.old }
        ensures ours { AreOf areas.now passes.new }
        ensures pager { HasPager pages.now (reach_of self board.now) pager.new }
        ensures served { ServedAs self board.now (L.wire link.old) (node_with (C.readings clock.old) passes.old pager.old) result
            (L.wire link.new) (node_with (C.readings clock.new) passes.new pager.new) }
    {
        match self {
            Service::Menus => serve_session(
                rt, alloc, board, areas, passes, pages, pager, link, clock,
            ),
            Service::News => serve_news(
                rt, alloc, board, areas, passes, pages, pager, link, clock,
            ).into(),
        }
    }
}
