ghost use Rattle.ly_tokens.specs.Laws.{AnswerIsOne, RowWalkAgrees};

/// A lex file and a text have exactly one output, which ends in exactly one way.
pub fn answer_is_one()
    ensures { AnswerIsOne }
{}

/// A walk over the rows of a DFA agrees with the rules of a lex file, if the DFA has the same rules as the file's
/// subset construction.
pub fn row_walk_agrees()
    ensures { RowWalkAgrees }
{}
