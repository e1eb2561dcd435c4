ghost use Rattle.ly_pack.specs.SteadyLaws.{BottomMakesEdge, LeavingLowers, ReducesAbove, ReductionsFall};
ghost use Rattle.ly_pack.specs.SteadyLaws.{ReductionsKeepEdges, RunsAboveEnd, RunsEnd, ShiftsKeepEdges};

/// Theorem: neighbours on a parser's stack of states stay edges.
pub fn stacks_keep_edges()
    ensures reductions { ReductionsKeepEdges }
    ensures shifts { ShiftsKeepEdges }
    ensures bottom { BottomMakesEdge }
{}

/// Theorem: on steady tables every run on a token ends.
pub fn runs_end()
    ensures alike { ReducesAbove }
    ensures leaves { LeavingLowers }
    ensures above { RunsAboveEnd }
    ensures all { RunsEnd }
    ensures falls { ReductionsFall }
{}
