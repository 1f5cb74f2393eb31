//! What keeps an area linked.
ghost use Rattle.jb_decide.specs.Laws.{PostsKeepLinks};

/// A linked area stays linked whatever is posted to it: the new message has its parent in ReplyTo, and the one header
/// that [`splice`](jb_link::Replies::splice) names has its number. A kill changes no link, so after it Reply1st or ReplyNext of
/// another message may still name the killed one, and messages that answered the killed one may have another parent
/// or none; the area is linked again after a relink or a pack.
///
/// It computes nothing: its contract is the law.
pub fn posts_keep_links()
    ensures { PostsKeepLinks }
{}
