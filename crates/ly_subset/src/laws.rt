ghost use Rattle.ly_subset.specs.Laws.{ClassesOfRules, EntriesAreOne, MoreSetsOfRules, NoMoreSetsThanStates};
ghost use Rattle.ly_subset.specs.Laws.{NumberedAreReached, SubsetsAreSpotSets, SubsetsAreTrim, WalksAgree};

/// States that are numbered breadth first are reachable.
pub fn numbered_are_reached()
    ensures { NumberedAreReached }
{}

/// A walk over the DFA ends in the least rule that a run over the positions reaches.
pub fn walks_agree()
    ensures { WalksAgree }
{}

/// If each position leads to an end mark, each state of the DFA is reachable and leads to a rule.
pub fn subsets_are_trim()
    ensures { SubsetsAreTrim }
{}

/// The states of the DFA are, one to one, the sets of positions of the patterns that can come next.
pub fn subsets_are_spot_sets()
    ensures { SubsetsAreSpotSets }
{}

/// An automaton that has the positions of rules has more than n sets if and only if the rules have.
pub fn more_sets_of_rules()
    ensures { MoreSetsOfRules }
{}

/// There are no more sets of positions that can come next than states.
pub fn no_more_sets_than_states()
    ensures { NoMoreSetsThanStates }
{}

/// Two bytes are in one class if and only if the same positions of the patterns read them.
pub fn classes_of_rules()
    ensures { ClassesOfRules }
{}

/// The numbers of the states are unique: over the same classes, two such automata have the same entries.
pub fn entries_are_one()
    ensures { EntriesAreOne }
{}
