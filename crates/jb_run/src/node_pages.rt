//! The pages of a run: made before its areas are opened, and closed behind its workers.
ghost use Rattle.std.specs.Prelude.{◌≡◌, ◌+◌, ◌++◌, ◌<◌, ◌≤◌, IfOk, length, option_to_list, reverse, vec_capacity};
ghost use Rattle.jb_limits.specs.declared.limits.TheConstants.{MOST_NODES};
ghost use Rattle.jb_page.specs.Closing.{PagesInOrder};
ghost use Rattle.jb_page.specs.Pagers.{AreNewPagers};
ghost use Rattle.jb_run.specs.NodePages.{ArePagersOf};

use jb_base::OutOfMemory;
use jb_page::{Page, Pager, Pages};
use std::alloc::Global;
use std::sync::Wait;

/// The pages of a run, and the pagers that nobody uses, of which the first node's is the last.
#[derive(Drop)]
pub(crate) struct NodePages {
    pub pages: Pages,
    pub pagers: Vec<Pager>,
}

/// The pages between so many nodes, and a new pager for each.
pub(crate) fn node_pages_for(alloc: Global, nodes: u32) -> Result<NodePages, OutOfMemory>
    requires { (0 < nodes) × (nodes ≤ MOST_NODES) }
    ensures new { IfOk result (λ node_pages. AreNewPagers nodes (reverse node_pages.pagers.items)) }
    ensures of { IfOk result (λ node_pages. ArePagersOf node_pages.pages (reverse node_pages.pagers.items)) }
{
    let (pages, mut pagers) = Pages::new(alloc, nodes)?;
    pagers.reverse();
    Ok(NodePages { pages, pagers })
}

/// Puts a pager back behind the others, where there is one.
pub(crate) fn put_back(pagers: &mut Vec<Pager>, pager: Option<Pager>)
    requires { length pagers.old.items + length (option_to_list pager) ≤ vec_capacity pagers.old }
    ensures items { pagers.new.items ≡ pagers.old.items ++ option_to_list pager }
    ensures room { vec_capacity pagers.new ≡ vec_capacity pagers.old }
{
    match pager {
        Some(pager) => pagers.push_reserved(pager),
        None => {}
    }
}

/// Closes the pages once each pager is back, and gives those that are unread.
pub(crate) fn close_pages<R: Wait>(rt: &R, node_pages: NodePages) -> Vec<Page>
    requires { ArePagersOf node_pages.pages (reverse node_pages.pagers.items) }
    ensures { PagesInOrder (reverse node_pages.pagers.items) node_pages.pages.nodes result.items }
{
    let NodePages { pages, mut pagers } = node_pages;
    pagers.reverse();
    let Ok(unread) = pages.close(rt, pagers) else {
        unreachable!()
    };
    unread
}
