//! What holds of all that is asked of a node.
ghost use Rattle.std.specs.Prelude.{ℕ};
ghost use Rattle.jb_shared.specs.Passes.{first_known};
ghost use Rattle.jb_shared.specs.declared.opening.Opening.{Opening};
ghost use Rattle.jb_session.specs.Laws.{LooksRise, LooksNeverFall};
ghost use Rattle.jb_session.specs.Pages.{NoPagerComes, PagesAreAsked, PagesGoOn};

/// Through whatever is asked of a node, its looks and counts show never less of an area than those before, from a new pass on.
///
/// It computes nothing: its contract is the law.
pub fn looks_never_fall()
    ensures first { (node : ℕ) (opening : Opening) → LooksRise (first_known node opening) }
    ensures rise { LooksNeverFall }
{}

/// What a node's pager tells more, behind whatever is asked of the node, is just the pages that were sent and taken then, and the answers;
/// and so through what is asked after that. A node without a pager gets none.
///
/// It computes nothing: its contract is the law.
pub fn pages_are_asked()
    ensures asked { PagesAreAsked }
    ensures go_on { PagesGoOn }
    ensures none { NoPagerComes }
{}
