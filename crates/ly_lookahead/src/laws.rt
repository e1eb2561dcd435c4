ghost use Rattle.ly_lookahead.specs.Laws.{RelationsGiveLookaheads};

/// Theorem: the relations give exactly the merged lookaheads, for every reduced grammar (DeRemer and Pennello 1982, 4).
pub fn relations_give_lookaheads()
    ensures { RelationsGiveLookaheads }
{}
