ghost use Rattle.ly_emit.specs.Laws.{AcceptedFollow, EndlessExcludesSteady, ExpectedFollow, RefusedFollow};
ghost use Rattle.ly_emit.specs.Laws.{RunsEndOnSteady};
ghost use Rattle.ly_emit.specs.Laws.{ShapesAreOfRules, ShapesAreWithin, SteadyTogether, TablesAreOne, TablesFollow};

/// Theorem: the reference machine does to a token what tables with defaults do, with the same derivation trees on its
/// stack.
pub fn tables_follow()
    ensures { TablesFollow }
{}

/// Theorem: if tables accept a text or reject a token, so does the reference machine, with the same tree or at the same
/// token. If the tables are steady, its runs end.
pub fn runs_follow()
    ensures accepted { AcceptedFollow }
    ensures refused { RefusedFollow }
    ensures ends { RunsEndOnSteady }
{}

/// Theorem: the terminals that steady tables with defaults expect are those that the reference machine would read next.
pub fn expected_follow()
    ensures { ExpectedFollow }
{}

/// Theorem: the rules in a derivation tree have the same shapes in the tables as in the specification.
pub fn shapes_are_of_rules()
    ensures { ShapesAreOfRules }
{}

/// Theorem: the trees of a yacc file's rules use places of their bodies, each at most once.
pub fn shapes_are_within()
    ensures { ShapesAreWithin }
{}

/// Theorem: a specification has the same tables for any automata, so either all or none of them are steady. If the loop
/// check names a run of some, no others are steady.
pub fn tables_are_one()
    ensures same { TablesAreOne }
    ensures steady { SteadyTogether }
    ensures endless { EndlessExcludesSteady }
{}
