ghost use Rattle.ly_resolve.specs.Laws.{AcceptsSentences, AcceptsTreesOnly, DefaultsNeverMislead, IsUnambiguous};
ghost use Rattle.ly_resolve.specs.Laws.{NextContinues, OneTokenTells, ReadsPrefixes, ReadsToOne, RefusesExactly};
ghost use Rattle.ly_resolve.specs.Laws.{RefusesFirst};

/// Theorem: without conflicts, the reference machine accepts each sentence with each of its trees.
pub fn accepts_sentences()
    ensures { AcceptsSentences }
{}

/// Theorem: without conflicts, no sentence has two trees.
pub fn is_unambiguous()
    ensures { IsUnambiguous }
{}

/// Theorem: what the reference machine accepts, even with conflicts, is a tree of the tokens before the end.
pub fn accepts_trees_only()
    ensures { AcceptsTreesOnly }
{}

/// Theorem: the tokens that the reference machine has read, even with conflicts, begin a sentence.
pub fn reads_prefixes()
    ensures { ReadsPrefixes }
{}

/// Theorem: without conflicts, the token that the reference machine refuses is the first that continues no sentence.
pub fn refuses_first()
    ensures { RefusesFirst }
{}

/// Theorem: without conflicts, if its run ends, the machine refuses exactly the first token that continues no sentence.
pub fn refuses_exactly()
    ensures { RefusesExactly }
{}

/// Theorem: without conflicts, the terminals that the reference machine would read after some tokens are those that
/// continue a sentence. The outcome for one token of a terminal decides whether the terminal is among them. The stack
/// after the tokens, on which this depends, is unique.
pub fn next_terminals()
    ensures continues { NextContinues }
    ensures told { OneTokenTells }
    ensures one { ReadsToOne }
{}

/// Theorem: if reductions lead to a shift of a terminal, it is in the lookahead of the first one.
pub fn defaults_never_mislead()
    ensures { DefaultsNeverMislead }
{}
