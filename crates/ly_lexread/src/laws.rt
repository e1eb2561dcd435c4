ghost use Rattle.ly_lexread.specs.Laws.{LexingGoesOn, LexingIsOne};
ghost use Rattle.ly_lexread.specs.LexText.{ConditionsBegin, DefinitionsBegin, LexTextIsOne, RulesBegin};

/// A text has one lexing under given rules, if each cut is right.
pub fn lexing_is_one()
    ensures { LexingIsOne }
{}

/// A prefix of a lexing, followed by a lexing of the rest, is a lexing.
pub fn lexing_goes_on()
    ensures { LexingGoesOn }
{}

/// Any two values of one lex file have the same names, patterns, conditions and actions, and the same offsets of these.
pub fn lex_text_is_one()
    ensures { LexTextIsOne }
{}

/// At its offset in the file begins each rule, each line that defines a name, and the name of each declared condition.
pub fn lex_text_begins_there()
    ensures rules { RulesBegin }
    ensures definitions { DefinitionsBegin }
    ensures conditions { ConditionsBegin }
{}
