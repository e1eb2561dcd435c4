ghost use Rattle.ly_engine.specs.GivenTokens.{GivenSentencesAreAnswered, GivenTokensAreAnswered, TreesAreOfGivenTokens};
ghost use Rattle.ly_engine.specs.Spans.{SpansAreOfDerivations, SpansAreOfGivenTokens, SpansAreOfTheOnlyDerivation};

/// Tokens that were not found by a set's scanner are parsed as the specification defines it: by the reference machine;
/// without conflicts, by their derivations alone; and a tree is always a derivation of all of them.
pub fn given_tokens_are_answered()
    ensures machine { GivenTokensAreAnswered }
    ensures sentences { GivenSentencesAreAnswered }
    ensures trees { TreesAreOfGivenTokens }
{}

/// The tree of a text is, with its spans, that of a derivation of all of the text's tokens; without conflicts, of the
/// only one. So is the tree of tokens that were not found by the set's scanner.
pub fn spans_are_of_derivations()
    ensures derivation { SpansAreOfDerivations }
    ensures only { SpansAreOfTheOnlyDerivation }
    ensures given { SpansAreOfGivenTokens }
{}
