//! That only the user who is logged in asks.
ghost use Rattle.jb_talk.specs.Laws.{CallersAsk, NobodyAsks};

/// Over any bytes, with any answers, an area is asked only for the user who is logged in then, and pages are sent and taken only while one
/// is, so that nothing is asked before the log-in.
///
/// It computes nothing: its contract is the law.
pub fn nobody_asks_before_log_in()
    ensures callers { CallersAsk }
    ensures nobody { NobodyAsks }
{}
