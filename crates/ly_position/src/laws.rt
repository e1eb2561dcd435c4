ghost use Rattle.ly_position.specs.Laws.{AllArePositions, PathsChangeOver, PositionsAreAsMany, PositionsComeNext};
ghost use Rattle.ly_position.specs.Laws.{PositionsLive, PositionsSpell, ReadsAlong, SomeHasTwoPositions};
ghost use Rattle.ly_position.specs.Laws.{SoundHasAll, WrittenMatches};

/// An expanded expression matches the same strings.
pub fn written_matches()
    ensures { WrittenMatches }
{}

/// An expression matches a string if and only if the string can be read along a path of the expression's sets.
pub fn reads_along()
    ensures { ReadsAlong }
{}

/// Two paths through the same position can be recombined there.
pub fn paths_change_over()
    ensures { PathsChangeOver }
{}

/// If every set has a byte, the positions are the numbers of all sets and of the end mark.
pub fn all_are_positions()
    ensures { AllArePositions }
{}

/// The same holds for a sound pattern.
pub fn sound_has_all()
    ensures { SoundHasAll }
{}

/// A rule `a+` has two positions, so it differs from `aa*`.
pub fn some_has_two_positions()
    ensures { SomeHasTwoPositions }
{}

/// The runs of an automaton with the positions of rules read exactly the rules' strings.
pub fn positions_spell()
    ensures { PositionsSpell }
{}

/// The runs over a string reach exactly the positions that can come next after it.
pub fn positions_come_next()
    ensures { PositionsComeNext }
{}

/// Each position leads to an end mark.
pub fn positions_live()
    ensures { PositionsLive }
{}

/// Two automata with the positions of the same rules have the same number of positions.
pub fn positions_are_as_many()
    ensures { PositionsAreAsMany }
{}
