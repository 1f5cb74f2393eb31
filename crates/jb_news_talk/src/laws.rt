//! What makes a reader's conversation safe to rely on.
ghost use Rattle.jb_news_talk.specs.Laws.{EachOnlyReads, NeverRefused, SeesOpenOnly};
ghost use Rattle.jb_news_talk.specs.Whole.{ListsAreWhole};

/// Over any lines, with any answers, each request looks at a group, or peeks at a message of it, or asks what the clock shows: no other area
/// is asked, no other act is asked of one, and no page is sent or taken.
///
/// It computes nothing: its contract is the law.
pub fn news_only_reads()
    ensures { EachOnlyReads }
{}

/// In a group, news sees no message that is not to be shown, and no private one but such as bear its own name, which no line can hold.
///
/// It computes nothing: its contract is the law.
pub fn news_sees_open_only()
    ensures { SeesOpenOnly }
{}

/// No conversation of a reader ends by a refused log-in: there is none.
///
/// It computes nothing: its contract is the law.
pub fn news_is_never_refused()
    ensures { NeverRefused }
{}

/// Over an area whose list stays the same while it is told, `LISTGROUP` and `OVER` tell each message of their range once, in order.
///
/// It computes nothing: its contract is the law.
pub fn lists_are_whole()
    ensures { ListsAreWhole }
{}
