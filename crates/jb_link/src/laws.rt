//! What leaves an index of the replies of an area as it is.
ghost use Rattle.jb_link.specs.IndexLaws.{RestsOnSlots, StaysUnderHeads, StaysUnderRelink};

/// The index rests on the base and the slots alone: it stays that of the area whatever becomes of the marks and of the
/// other numbers of the fixed header.
///
/// It computes nothing: its contract is the law.
pub fn rests_on_slots()
    ensures { RestsOnSlots }
{}

/// The index stays that of the area when a message gets other fields in its header, as by a reading or as the
/// neighbour of a new reply, where its ReplyTo is the same.
///
/// It computes nothing: its contract is the law.
pub fn stays_under_heads()
    ensures { StaysUnderHeads }
{}

/// The index stays that of the area when all links are computed anew.
///
/// It computes nothing: its contract is the law.
pub fn stays_under_relink()
    ensures { StaysUnderRelink }
{}
