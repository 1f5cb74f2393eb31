//! The run of one session.
ghost use Rattle.std.specs.Prelude.{◌≡◌, ◌⊎◌, ◌∷◌, IfErr, IfOk, IsSome, ℕ, List, Option, Some, length, reverse};
ghost use Rattle.jb_run.specs.All.{AreShared, passes_at};
ghost use Rattle.jb_host.specs.Desk.{Desk};
ghost use Rattle.jb_host.specs.Wire.{Wire};
ghost use Rattle.jb_page.specs.Pagers.{PagerView};
ghost use Rattle.jb_session.specs.Exchanges.{node_with};
ghost use Rattle.jb_session.specs.Served.{Served};
ghost use Rattle.jb_run.specs.Begins.{HasBoard, HasNoSettings, RefusesSettings};
ghost use Rattle.jb_run.specs.Local.{RunsLocal};
ghost use Rattle.jb_run.specs.NodePages.{ArePagersOf};

use crate::closing::close_areas;
use crate::error::RunError;
use crate::local_end::LocalEnd;
use crate::node_pages::{NodePages, close_pages, node_pages_for, put_back};
use crate::opening::{SharedAreas, open_areas};
use crate::settings::{tell_refusal, tell_unknown};
use jb_conf::{Board, read};
use jb_host::Host;
use jb_session::{SessionEnd, serve_session};
use std::alloc::Global;
use std::sync::Wait;

/// The board that the settings file at this path says, with which each run over areas begins. The operator is told what is wrong with it.
pub(crate) fn board_at<H: Host>(alloc: Global, host: &mut H, path: &str) -> Result<Board, RunError>
    ensures ok { IfOk result (λ board. HasBoard path.now board (H.desk host.old) (H.desk host.new)) }
    ensures err { IfErr result (λ error. HasNoSettings path.now (H.desk host.old) (H.desk host.new) error
        ⊎ RefusesSettings path.now (H.desk host.old) (H.desk host.new) error) }
{
    let bytes = host.settings(path)?;
    match read(alloc, bytes.as_slice()) {
        Ok(board) => {
            tell_unknown(alloc, host, path, board.unknown.as_slice());
            Ok(board)
        }
        Err(error) => {
            tell_refusal(alloc, host, path, bytes.as_slice(), error);
            Err(error.into())
        }
    }
}

/// One session over the console with the pager of node 1, which are back then.
fn serve<R: Wait, H: Host>(
    rt: &R,
    alloc: Global,
    host: &mut H,
    board: &Board,
    shared: &mut SharedAreas<H::Disk>,
    node_pages: &mut NodePages,
) -> SessionEnd
    requires whole { AreShared shared.old 1 (length board.now.areas) }
    requires nodes { node_pages.old.pages.nodes ≡ board.now.nodes }
    requires of { ArePagersOf node_pages.old.pages (reverse node_pages.old.pagers.items) }
    requires console { IsSome (H.desk host.old).console }
    ensures whole { AreShared shared.new 1 (length board.now.areas) }
    ensures served { (old now : Wire) × (left : Option (List ℕ)) × ((H.desk host.old).console ≡ Some old)
        × (H.desk host.new ≡ record (H.desk host.old) { console = Some now })
        × (pager after : PagerView) × (others : List PagerView) × (reverse node_pages.old.pagers.items ≡ pager ∷ others)
        × (reverse node_pages.new.pagers.items ≡ after ∷ others)
        × Served board.now old (node_with (H.desk host.old).readings (passes_at shared.old 0) (Some pager)) result now
        (node_with left (passes_at shared.new 0) (Some after)) }

    // The pages are the same, and the pagers are still theirs.
    ensures pages { node_pages.new.pages ≡ node_pages.old.pages }
    ensures of { ArePagersOf node_pages.new.pages (reverse node_pages.new.pagers.items) }
{
    let mut clock = host.clock();
    let mut console = host.console();
    let mut pager = node_pages.pagers.pop();
    let end = serve_session(
        rt,
        alloc,
        board,
        shared.areas.as_slice(),
        shared.nodes[0].as_mut_slice(),
        &node_pages.pages,
        &mut pager,
        &mut console,
        &mut clock,
    );
    put_back(&mut node_pages.pagers, pager);
    host.put_console(console);
    end
}

/// One session at the console of the host, as node 1 of this board, which was read.
fn run_board<R: Wait, H: Host>(
    rt: &R,
    alloc: Global,
    host: &mut H,
    board: &Board,
) -> Result<LocalEnd, RunError>
    requires console { IsSome (H.desk host.old).console }
    ensures { (path : List ℕ) (old : Desk) → HasBoard path board.now old (H.desk host.old)
        → RunsLocal path old (H.desk host.new) result }
{
    let Ok(mut node_pages) = node_pages_for(alloc, board.nodes) else {
        return Err(RunError::OutOfMemory);
    };
    let mut shared = open_areas(rt, alloc, host, board.areas.as_slice(), 1)?;
    let session = serve(rt, alloc, host, board, &mut shared, &mut node_pages);
    close_pages(rt, node_pages);
    let is_doubtful = close_areas(rt, host, board.areas.as_slice(), shared);
    Ok(LocalEnd {
        session,
        is_doubtful,
    })
}

/// One session at the console of the host, as node 1 of the board that the settings file at this path says. Everything that the host
/// handed out is back then.
pub fn local<R: Wait, H: Host>(
    rt: &R,
    alloc: Global,
    host: &mut H,
    path: &str,
) -> Result<LocalEnd, RunError>
    requires { IsSome (H.desk host.old).console }
    ensures { RunsLocal path.now (H.desk host.old) (H.desk host.new) result }
{
    let board = board_at(alloc, host, path)?;
    run_board(rt, alloc, host, &board)
}
