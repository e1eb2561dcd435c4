ghost use Rattle.std.specs.Prelude.{◌≡◌, ◌<◌, ◌+◌, ◌^◌, ◌≤◌, [], ◌∷◌, length, map, All, IfOk, Some};
ghost use Rattle.ly_join.specs.Grammar.{accept_rule, grammar_from, symbol_of, IsGrammar, IsRule, RuleWithin};

use crate::symbol::Symbol;
use ly_base::{OutOfMemory, Sym};
use std::alloc::Global;
use std::marker::Model;

/// A rule of a grammar: a nonterminal and a body that may replace it.
#[derive(Drop)]
pub struct GrammarRule {
    /// The nonterminal.
    left: Sym,
    /// The symbols of the body. Empty for an empty body.
    body: Vec<Symbol>,
}

impl Model for GrammarRule {
    ghost use Rattle.std.specs.Prelude.{map};
    ghost use Rattle.ly_join.specs.Grammar.{GrammarRule, symbol_of};

    ghost Value = { GrammarRule };

    ghost view = { λ r. record { left = r.left.0; body = map symbol_of r.body.items } };
}

impl GrammarRule {
    /// The rule with this left side and body.
    pub fn new(left: Sym, body: Vec<Symbol>) -> GrammarRule
        ensures { result ≡ record { left = left.0; body = map symbol_of body.items } }
    {
        GrammarRule { left, body }
    }

    /// The nonterminal on the left side.
    pub fn left(&self) -> Sym
        ensures { result.0 ≡ self.now.left }
    {
        self.left
    }

    /// The symbols of the body, in order.
    pub fn body(&self) -> &[Symbol]
        ensures { map symbol_of result.now ≡ self.now.body }
    {
        &self.body
    }
}

/// A grammar with numbered symbols and rules (Knuth 1965, augmented). Rule 0 is `$accept : start $end`, and no other
/// rule contains `$accept` or `$end`.
#[derive(Drop)]
pub struct Grammar {
    /// The number of terminals, with `$end` and `$undef`.
    terminals: u32,
    /// The number of nonterminals without `$accept`, which is also the number of `$accept`.
    nonterminals: u32,
    /// The start symbol of the sentences.
    start: Sym,
    /// The rules by number.
    rules: Vec<GrammarRule>,
}

impl Model for Grammar {
    ghost use Rattle.std.specs.Prelude.{map, Some};
    ghost use Rattle.ly_join.specs.Grammar as spec;
    ghost use Rattle.ly_join.specs.Grammar.{grammar_from, IsGrammar};

    ghost Value = { spec.Grammar };

    ghost view = { λ g. grammar_from g.terminals g.nonterminals g.start.0 g.rules.items };

    ghost invariant = { λ g. IsGrammar (grammar_from g.terminals g.nonterminals g.start.0 g.rules.items) };
}

impl Grammar {
    /// The grammar of these rules, after rule 0. The error is that memory ran out.
    pub(crate) fn new(
        alloc: Global,
        terminals: u32,
        nonterminals: u32,
        start: Sym,
        mut rules: Vec<GrammarRule>,
    ) -> Result<Grammar, OutOfMemory>
        requires start { start.0 < nonterminals }
        requires some { 0 < terminals }
        requires within { All (RuleWithin terminals nonterminals) rules.items }
        ensures { IfOk result (λ g. g ≡ grammar_from terminals nonterminals start.0
            (accept_rule nonterminals start.0 ∷ rules.items)) }
    {
        let mut body = Vec::new(alloc);
        body.push(Symbol::Nonterminal(start))?;
        body.push(Symbol::Terminal(Sym(0)))?;
        rules.insert(0, GrammarRule::new(Sym(nonterminals), body))?;
        Ok(Grammar {
            terminals,
            nonterminals,
            start,
            rules,
        })
    }

    /// The number of terminals, with `$end` and `$undef`.
    pub fn terminals(&self) -> u32
        ensures { result ≡ self.now.terminals }
    {
        self.terminals
    }

    /// The number of `$accept`, which equals the number of other nonterminals.
    pub fn accept(&self) -> Sym
        ensures { result.0 ≡ self.now.accept }
    {
        Sym(self.nonterminals)
    }

    /// The start symbol of the sentences.
    pub fn start(&self) -> Sym
        ensures value { result.0 ≡ self.now.start }
        ensures within { result.0 < self.now.accept }
    {
        self.start
    }

    /// The rule with this number.
    pub fn rule(&self, number: usize) -> &GrammarRule
        requires { number < length self.now.rules }
        ensures there { IsRule self.now number result.now }
        ensures lawful { IsGrammar self.now }
    {
        &self.rules[number]
    }

    /// The rules by number, with rule 0. All their symbols belong to the grammar.
    pub fn rules(&self) -> &[GrammarRule]
        ensures these { map Some result.now ≡ self.now.rules }
        ensures lawful { IsGrammar self.now }
    {
        &self.rules
    }
}
