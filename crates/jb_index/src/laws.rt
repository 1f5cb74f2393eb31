//! What an answer says of the area.
ghost use Rattle.jb_index.specs.Laws.{AnswersOfTheArea};

/// To a user with a name of 1 to 36 bytes the index of an area answers what the area shows: the messages that the user
/// sees, those of them that are unread, and the threads of the area's own links.
///
/// It computes nothing: its contract is the law.
pub fn answers_of_the_area()
    ensures { AnswersOfTheArea }
{}
