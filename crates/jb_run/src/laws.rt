//! That runs with callers are complete, and that no page between their nodes is lost.
ghost use Rattle.jb_run.specs.Laws.{RefusesNoOpenBoard};
ghost use Rattle.jb_run.specs.Reach.{EachReachesOfMany, EachReachesOfOne};

use jb_area_open::what_opens_is_not_refused;
use jb_server::pages_are_of_sessions;
use jb_session::pages_are_asked;

/// Where nothing has failed, and the settings and the bases of their areas are there and open, callers are served, unless memory is
/// wanting. It computes nothing: its contract is the law.
pub fn open_boards_are_served()
    ensures { RefusesNoOpenBoard }
{
    what_opens_is_not_refused();
}

/// Each page that the sessions of one node put for another was taken in a session of that one, or is unread when the pages are closed; those
/// of each sender once, and in order. It computes nothing: its contract is the law.
pub fn each_page_reaches_its_node()
    ensures many { EachReachesOfMany }
    ensures one { EachReachesOfOne }
{
    pages_are_of_sessions();
    pages_are_asked();
}
