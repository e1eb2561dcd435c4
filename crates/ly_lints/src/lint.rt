//! Warnings as values: what may be a mistake, and where.
ghost use Rattle.std.specs.Prelude.{◌≡◌, [], IsTrue};

use crate::patterns::PatternLint;
use ly_base::{Location, Sym};
use ly_yaccread::SymbolName;

/// One of the two files.
#[derive(Clone, Copy, Debug, PartialEq, Eq)]
pub enum Side {
    /// The lex file.
    Lex,
    /// The yacc file.
    Yacc,
}

/// A warning: something that may be a mistake.
#[derive(Drop)]
pub struct Lint<'a> {
    /// The file that it is in.
    pub side: Side,
    /// Its location. `None` for a warning that only counts others.
    pub at: Option<Location>,
    /// The kind of warning.
    pub kind: LintKind<'a>,
}

/// The warnings about two files.
#[derive(Drop)]
pub struct Lints<'a> {
    /// The warnings, in the order in which they are printed.
    pub list: Vec<Lint<'a>>,
    /// The rules of the lex file that never match, each with a warning. None if there is no lex file.
    pub unmatched: Vec<usize>,
    /// The rules of the grammar that are never reduced, each with a warning.
    pub unreduced: Vec<usize>,
}

impl Lints<'_> {
    /// Whether there are no warnings, and so no rules that never match or are never reduced.
    pub fn is_empty(&self) -> bool
        ensures list { IsTrue result → self.now.list.items ≡ [] }
        ensures unmatched { IsTrue result → self.now.unmatched.items ≡ [] }
        ensures unreduced { IsTrue result → self.now.unreduced.items ≡ [] }
        ensures only { self.now.list.items ≡ [] → self.now.unmatched.items ≡ [] → self.now.unreduced.items ≡ []
            → IsTrue result }
    {
        self.list.is_empty() && self.unmatched.is_empty() && self.unreduced.is_empty()
    }
}

/// The kinds of warnings.
#[derive(Drop)]
pub enum LintKind<'a> {
    /// No action sets this condition.
    UnsetCondition(&'a [u8]),
    /// No rule is active in this condition.
    IdleCondition(&'a [u8]),
    /// Once it is set, no action sets another condition.
    EndlessCondition(&'a [u8]),
    /// No rule uses this definition.
    UnusedDefinition(&'a [u8]),
    /// A pattern has another meaning than it may seem to have.
    PatternLint {
        /// The construct with that meaning.
        pattern_lint: PatternLint,
        /// The line of the pattern.
        line: &'a [u8],
        /// The offset of the construct in the line.
        offset: usize,
    },
    /// A line among the rules begins with a blank.
    IndentedLine,
    /// A rule of the lex file never matches.
    UnmatchedRule(Hiding),
    /// This literal is returned, but the yacc file doesn't name it.
    UnnamedLiteral(u8),
    /// This rule occurs in no tree of the start symbol.
    UselessRule(usize, Uselessness),
    /// This rule is never reduced.
    UnreducedRule(usize),
    /// This rule has no action, so the trees of its other symbols are lost.
    LosingRule(usize),
    /// This terminal occurs in no rule.
    UnusedTerminal(Sym),
    /// So many more terminals occur in no rule.
    MoreUnused(usize),
    /// No rule of the lex file returns this terminal.
    UnreturnedTerminal(Sym),
    /// So many more terminals are returned by no rule.
    MoreUnreturned(usize),
    /// This token was declared before.
    DeclaredAgain {
        /// The token.
        symbol: &'a SymbolName,
        /// The location of its first declaration.
        first: Location,
    },
    /// The precedence of this terminal has no effect.
    IdlePrecedence(Sym),
    /// The `%prec` of this rule has no effect.
    IdlePrec(usize),
}

/// Why a rule of the lex file never matches.
#[derive(Drop)]
pub enum Hiding {
    /// Earlier rules match its strings. Finding out which took too many steps.
    Earlier,
    /// The rule matches only the empty string.
    EmptyAlone,
    /// The rules on these lines match its strings. The lines ascend.
    Lines(Vec<u64>),
}

/// Why a rule is useless.
#[derive(Clone, Copy, Debug, PartialEq, Eq)]
pub enum Uselessness {
    /// This nonterminal of its body derives no string of tokens.
    DerivesNothing(Sym),
    /// The start symbol never leads to its left side.
    Unreached(Sym),
}
