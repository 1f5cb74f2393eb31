//! What a change of nothing makes.
ghost use Rattle.jb_change.specs.Changing.{MakesNothing};

/// A redo that holds nothing makes of files that hold an area the same files: with it each list of small changes begins.
///
/// It computes nothing: its contract is the law.
pub(crate) fn makes_nothing()
    ensures { MakesNothing }
{}
