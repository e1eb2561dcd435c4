ghost use Rattle.ly_parse.specs.Deriving.{AcceptedTermsAreBuilt, DerivesInOneWay, TermsAreOfTrees, TreesAreFedInOneWay};
ghost use Rattle.ly_parse.specs.FeedingLaws.{FeedsInOneWay};

/// Theorem: the outcome for a token is unique.
pub fn a_token_is_fed_in_one_way()
    ensures { FeedsInOneWay }
{}

/// Theorem: tables do the same with derivation trees on their stack as with terms, and the terms are those that their
/// rules build from the trees. The outcome with trees is unique too, and so is the derivation of the tokens that are
/// accepted.
pub fn terms_are_of_trees()
    ensures same { TermsAreOfTrees }
    ensures one { TreesAreFedInOneWay }
    ensures derived { DerivesInOneWay }
    ensures built { AcceptedTermsAreBuilt }
{}
