//! That the tools serve what they are for.
ghost use Rattle.jb_tool.specs.Laws.{BacksUpWhatOpens, MakesWhereNoneIs, ServesWhatOpens};

/// Where the disk does not fail, each tool serves each base that opens: it does its work or wants memory, `make` says that a
/// base is there, and `pack` alone may find the texts too long. Where the files are empty `make` makes a base, or wants memory.
/// A base that opens is backed up, unless memory is wanting or a file of the target is not empty.
///
/// It computes nothing: its contract is the law.
pub fn tools_are_complete()
    ensures served { ServesWhatOpens }
    ensures made { MakesWhereNoneIs }
    ensures backed { BacksUpWhatOpens }
{}
