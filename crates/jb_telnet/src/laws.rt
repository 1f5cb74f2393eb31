//! What makes the events of a stream well defined.
ghost use Rattle.jb_telnet.specs.Laws.{EachIsCut, CutsOneWay, EventsGrow};

/// Any bytes are cut into units in exactly one way, and the events of more bytes go on from those of fewer.
///
/// So it does not matter in which pieces bytes come. It computes nothing: its contract is the law.
pub fn bytes_are_cut_one_way()
    ensures some { EachIsCut }
    ensures same { CutsOneWay }
    ensures kept { EventsGrow }
{}
