//! That two sides do not answer one statement for ever.
ghost use Rattle.jb_option.specs.Laws.{AnswersOnlyChanges, AnswersNoRefusal, ExchangesEnd};

/// Where the board has the option, what changes nothing is not answered; a refusal that changes nothing never is. So where
/// one statement is under way at a time, at most three answers follow it (RFC 854, "General considerations", the rules
/// against loops of acknowledgements). Statements that cross on their way are the subject of RFC 1143, and not covered.
///
/// It computes nothing: its contract is the law.
pub fn exchanges_end()
    ensures same { AnswersOnlyChanges }
    ensures none { AnswersNoRefusal }
    ensures fits { ExchangesEnd }
{}
