ghost use Rattle.std.specs.Prelude.{◌≡◌, ◌<◌, length, map, slice_get, Some};
ghost use Rattle.ly_join.specs.Grammar.{IsGrammar};
ghost use Rattle.ly_join.specs.Joined.{note_of};
ghost use Rattle.ly_join.specs.Sizes.{HasSizes};
ghost use Rattle.ly_join.specs.Terminals.{terminal_from, IsOfByte};

use crate::grammar::Grammar;
use crate::precedence::Precedence;
use crate::rule::RuleNote;
use crate::terminal::TerminalName;
use ly_base::{ScanAction, Sym};
use std::marker::Model;

/// A lex file and a yacc file as one: a numbered grammar, the names of its symbols, and what the rules of both files
/// do.
#[derive(Drop)]
pub struct Spec {
    /// The grammar.
    pub(crate) grammar: Grammar,
    /// The names of its terminals.
    pub(crate) terminals: Vec<TerminalName>,
    /// The number of each byte's literal, if the grammar has it.
    pub(crate) literals: Vec<Option<Sym>>,
    /// The names of its nonterminals, without `$accept`.
    pub(crate) nonterminals: Vec<Vec<u8>>,
    /// The precedence of each terminal, if it has one.
    pub(crate) precedences: Vec<Option<Precedence>>,
    /// The note of each rule, with rule 0.
    pub(crate) notes: Vec<RuleNote>,
    /// The action of each rule of the lex file.
    pub(crate) scanner: Vec<ScanAction>,
}

impl Model for Spec {
    ghost use Rattle.std.specs.Prelude.{map};
    ghost use Rattle.ly_join.specs.Joined as spec;
    ghost use Rattle.ly_join.specs.Joined.{note_of};
    ghost use Rattle.ly_join.specs.Terminals.{terminal_from};
    ghost use Rattle.ly_join.specs.Private.Tables.{AreLiterals};

    ghost Value = { spec.Spec };

    ghost use Rattle.ly_join.specs.Sizes.{HasSizes};

    ghost view = { λ s. record {
      grammar = s.grammar;
      terminals = map terminal_from s.terminals.items;
      nonterminals = map (λ n. n.items) s.nonterminals.items;
      precedences = s.precedences.items;
      notes = map note_of s.notes.items;
      scanner = s.scanner.items;
    } };

    ghost invariant = { λ s. HasSizes (record {
      grammar = s.grammar;
      terminals = map terminal_from s.terminals.items;
      nonterminals = map (λ n. n.items) s.nonterminals.items;
      precedences = s.precedences.items;
      notes = map note_of s.notes.items;
      scanner = s.scanner.items;
    }) × AreLiterals (map terminal_from s.terminals.items) s.literals.items };
}

impl Spec {
    /// The grammar.
    pub fn grammar(&self) -> &Grammar
        ensures grammar { result.now ≡ self.now.grammar }
        ensures sizes { HasSizes self.now }
    {
        &self.grammar
    }

    /// The names of the terminals, by number: `$end`, `$undef`, and the others by their first appearance.
    pub fn terminals(&self) -> &[TerminalName]
        ensures { map terminal_from result.now ≡ self.now.terminals }
    {
        &self.terminals
    }

    /// The name of the nonterminal with this number.
    pub fn nonterminal(&self, number: Sym) -> &[u8]
        requires { number.0 < length self.now.nonterminals }
        ensures { slice_get self.now.nonterminals number.0 ≡ Some result.now }
    {
        &self.nonterminals[number.0 as usize]
    }

    /// The terminal of a byte that is returned as itself: its literal, or `$undef` if the grammar has no such literal.
    pub fn of_byte(&self, byte: u8) -> Sym
        ensures { IsOfByte self.now.terminals byte result.0 }
    {
        self.literals[byte as usize].unwrap_or(Sym(1))
    }

    /// The precedence of each terminal, by number, if it has one.
    pub fn precedences(&self) -> &[Option<Precedence>]
        ensures { result.now ≡ self.now.precedences }
    {
        &self.precedences
    }

    /// The note of each rule, by number, with rule 0.
    pub fn notes(&self) -> &[RuleNote]
        ensures { map note_of result.now ≡ self.now.notes }
    {
        &self.notes
    }

    /// The actions of the rules of the lex file, by number.
    pub fn scanner(&self) -> &[ScanAction]
        ensures { result.now ≡ self.now.scanner }
    {
        &self.scanner
    }
}
