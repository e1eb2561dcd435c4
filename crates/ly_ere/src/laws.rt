ghost use Rattle.ly_ere.specs.Definitions.{NamesAreOne};
ghost use Rattle.ly_ere.specs.Names.{NameIsDefinition};
ghost use Rattle.ly_ere.specs.Laws.{CutIsTrue, ExpressionHasString, FrontPatternIsOne, PatternIsOne, PhraseIsOne};
ghost use Rattle.ly_ere.specs.Laws.{WinnerIsOne, SplitIsOne};

/// The rule and the length of a winner are unique.
pub fn winner_is_one()
    ensures { WinnerIsOne }
{}

/// If the cut is right, the length of a match determines that of its token.
pub fn split_is_one()
    ensures { SplitIsOne }
{}

/// A name matches what its definition matches.
pub fn name_is_definition()
    ensures { NameIsDefinition }
{}

/// The texts of definitions have at most one list of definitions as their meaning.
pub fn names_are_one()
    ensures { NamesAreOne }
{}

/// A list of elements has at most one parse as an expression.
pub fn phrase_is_one()
    ensures { PhraseIsOne }
{}

/// A text has at most one pattern as its meaning.
pub fn pattern_is_one()
    ensures { PatternIsOne }
{}

/// A line starts with at most one pattern.
pub fn front_pattern_is_one()
    ensures { FrontPatternIsOne }
{}

/// An expression matches some string, if its sets have members and the definitions of its names match some.
pub fn expression_has_string()
    ensures { ExpressionHasString }
{}

/// The cut of a pattern is right.
pub fn cut_is_true()
    ensures { CutIsTrue }
{}
