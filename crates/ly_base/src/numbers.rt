/// The number of a rule, in the order of the file. Rules of a lex file count from 0. Rules of a grammar count from 1;
/// rule 0 is `$accept : start $end`.
#[derive(Clone, Copy, Debug, PartialEq, Eq, PartialOrd, Ord, Hash)]
pub struct RuleNo(pub u32);

/// The number of a state of an automaton, counted from 0.
#[derive(Clone, Copy, Debug, PartialEq, Eq, PartialOrd, Ord, Hash)]
pub struct StateNo(pub u32);

/// The number of a grammar symbol among the terminals or among the nonterminals. Terminal 0 is the end of the text.
/// Terminal 1 represents every byte that the grammar doesn't name.
#[derive(Clone, Copy, Debug, PartialEq, Eq, PartialOrd, Ord, Hash)]
pub struct Sym(pub u32);
