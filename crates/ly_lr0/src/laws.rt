ghost use Rattle.ly_lr0.specs.Laws.{AutomatonIsOne, NoMoreCoresThanStates};

/// Theorem: there are no more cores of viable prefixes than states.
pub fn no_more_cores_than_states()
    ensures { NoMoreCoresThanStates }
{}

/// Theorem: a grammar has exactly one automaton. Its states, their numbers, their transitions and their complete rules
/// are determined.
pub fn automaton_is_one()
    ensures { AutomatonIsOne }
{}
