//! What makes the lines of a connection and the names of articles well defined.
ghost use Rattle.jb_news.specs.Laws.{CutsOneWay, EachIsCut, LinesGrow};
ghost use Rattle.jb_news.specs.NameLaws.{GroupsAreRead, IdsAreRead};

/// Any bytes are cut into lines in exactly one way, and the lines of more bytes go on from those of fewer.
///
/// So it does not matter in which pieces bytes come. It computes nothing: its contract is the law.
pub fn lines_are_cut_one_way()
    ensures some { EachIsCut }
    ensures same { CutsOneWay }
    ensures kept { LinesGrow }
{}

/// The id of each article and the name of each group are read as what they name.
///
/// It computes nothing: its contract is the law.
pub fn names_are_read_back()
    ensures ids { IdsAreRead }
    ensures groups { GroupsAreRead }
{}
