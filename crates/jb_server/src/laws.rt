//! What holds of all sessions of a node, and of all rings of a packer.
ghost use Rattle.jb_server.specs.Laws.{BackupsAreOfRings, PagesAreOfSessions};

use jb_session::pages_are_asked;

/// What the pager of a node tells more, behind its sessions, is just the pages that were sent and taken in them, and the answers.
///
/// It computes nothing: its contract is the law.
pub fn pages_are_of_sessions()
    ensures { PagesAreOfSessions }
{
    pages_are_asked();
}

/// Of each target of a packer onto which no backup was tried before: no ring came for its area, and then it is as it was, or one did, and
/// then it is as the one backup of that area has left it, between two states of the area's history that the packer's pass has seen.
///
/// It computes nothing: its contract is the law.
pub fn backups_are_of_rings()
    ensures { BackupsAreOfRings }
{}
