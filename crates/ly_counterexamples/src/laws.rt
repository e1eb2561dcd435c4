ghost use Rattle.ly_counterexamples.specs.Laws.{ConflictsOpen, ExamplesFollow, MatchedWin, ShiftsHaveExamples};

/// A conflict has a counterexample exactly if from its first demand one follows with nothing left to claim. Each
/// conflict has a first demand.
pub fn examples_follow()
    ensures follow { ExamplesFollow }
    ensures opens { ConflictsOpen }
{}

/// A shift/reduce conflict always has a counterexample: merging makes no such conflict.
pub fn shifts_have_examples()
    ensures { ShiftsHaveExamples }
{}

/// In a DFA with the rules of a lex file's scanner, some string of at least one byte leads to a rule exactly if the
/// rule wins somewhere in some text.
pub fn matched_rules_win()
    ensures { MatchedWin }
{}
