//! Finds the nonterminals that have trees, with or without tokens, in time linear in the grammar. Each rule is visited
//! once, and again whenever the nonterminal that it waits for is found (Dowling and Gallier 1984).
ghost use Rattle.std.specs.Prelude.{◌≡◌, ◌≢◌, ◌<◌, ◌≤◌, ◌+◌, ◌↔◌, ◌++◌, ℕ, [], ◌∷◌, length, take, false, true};
ghost use Rattle.std.specs.Prelude.{replicate};
ghost use Rattle.std.specs.Prelude.{slice_index_or, slice_get, map, All, IfOk, OnOk, Some, option_map};
ghost use Rattle.ly_join.specs.Grammar.{IsRule, nonterminal, symbol_of};
ghost use Rattle.ly_join.specs.Grammar as join;
ghost use Rattle.ly_grammar.specs.Reduction.{restricted};
ghost use Rattle.ly_grammar.specs.Private.Search.{passes, waits_for, with_found, with_passed, with_waiting};
ghost use Rattle.ly_grammar.specs.Private.Search.{Advances, SymbolsPass, HasPassed, HasPlaces, HasTree, HasNumberBelow};
ghost use Rattle.ly_grammar.specs.Private.Search.{IsTakenNext, IsSearch};

use crate::waiting::Waiting;
use ly_join::{Grammar, GrammarRule, Symbol};
use std::alloc::{AllocError, Global};
use std::marker::Model;

/// A search in progress.
#[derive(Drop)]
struct Search {
    /// Whether trees may contain terminals.
    terminals: bool,
    /// For each nonterminal, whether a tree of it has been found.
    found: Vec<bool>,
    /// For each rule, the number of symbols at the front of its body that are known to have trees.
    passed: Vec<usize>,
    /// The rules that wait for the next symbol of their bodies.
    waiting: Waiting,
    /// The nonterminals that have been found and whose waiting rules haven't been visited.
    queue: Vec<usize>,
}

impl Model for Search {
    ghost use Rattle.ly_grammar.specs.Private.Search.{Progress};

    ghost Value = { Progress };

    ghost view = { λ s. record {
      terminals = s.terminals;
      found = s.found.items;
      passed = s.passed.items;
      waiting = s.waiting;
      queue = s.queue.items;
    } };
}

/// For each nonterminal, whether it has a tree by the kept rules: any tree, or one without tokens if terminals aren't
/// allowed.
pub(crate) fn with_trees(
    alloc: Global,
    grammar: &Grammar,
    kept: &[bool],
    terminals: bool,
) -> Result<Vec<bool>, AllocError>
    requires { length kept.now ≡ length grammar.now.rules }
    ensures long { IfOk result (λ found. length found.items ≡ grammar.now.accept + 1) }
    ensures exact { IfOk result (λ found. (A : ℕ) → (slice_index_or found.items A false ≡ true)
        ↔ HasTree (restricted kept.now grammar.now) terminals (nonterminal A)) }
{
    let mut search = Search::new(alloc, grammar, terminals)?;
    for number in 0..grammar.rules().len() {
        if kept[number] {
            search.advance(grammar.rule(number), number)?;
        }
    }
    while let Some(waiting) = search.next(alloc) {
        for &number in &waiting {
            search.advance(grammar.rule(number), number)?;
        }
    }
    Ok(search.found)
}

impl Search {
    /// A search that has found nothing yet.
    fn new(alloc: Global, grammar: &Grammar, terminals: bool) -> Result<Search, AllocError>
        ensures { IfOk result (λ s. s ≡ record {
          terminals = terminals;
          found = replicate (grammar.now.accept + 1) false;
          passed = replicate (length grammar.now.rules) 0;
          waiting = replicate (grammar.now.accept + 1) [];
          queue = [];
        }) }
    {
        let nonterminals = grammar.accept().0 as usize + 1;
        Ok(Search {
            terminals,
            found: vec![in alloc; false; nonterminals]?,
            passed: vec![in alloc; 0; grammar.rules().len()]?,
            waiting: Waiting::new(alloc, nonterminals)?,
            queue: Vec::new(alloc),
        })
    }

    /// Takes a nonterminal from the queue, and returns the rules that wait for it.
    fn next(&mut self, alloc: Global) -> Option<Vec<usize>>
        requires { All (λ A. A < length self.old.waiting) self.old.queue }
        ensures { IsTakenNext self.old self.new (option_map (λ rules. rules.items) result) }
    {
        let nonterminal = self.queue.pop()?;
        Some(self.waiting.take(alloc, nonterminal))
    }

    /// Advances over the body of a rule as far as possible. At the end, the left side is found; else the rule waits.
    fn advance(&mut self, rule: &GrammarRule, number: usize) -> Result<(), AllocError>
        requires { HasPlaces self.old number rule.now }
        ensures { OnOk result ((G : join.Grammar) → IsSearch G self.old → IsRule G number rule.now
            → Advances G self.old self.new number rule.now) }
    {
        match self.pass(rule, number) {
            None => self.find(rule.left().0 as usize),
            Some(Symbol::Nonterminal(symbol)) => self.wait(symbol.0 as usize, number),
            Some(Symbol::Terminal(_)) => Ok(()),
        }
    }

    /// Advances over the body of a rule as far as possible. Returns the symbol that blocks it, if any.
    fn pass(&mut self, rule: &GrammarRule, number: usize) -> Option<Symbol>
        requires { HasPlaces self.old number rule.now }
        ensures { HasPassed self.old self.new number rule.now result }
    {
        let body = rule.body();
        let at = passing_until(body, self.passed[number], &self.found, self.terminals);
        self.passed[number] = at;
        body.get(at).copied()
    }

    /// Marks a nonterminal as found.
    fn find(&mut self, nonterminal: usize) -> Result<(), AllocError>
        requires { nonterminal < length self.old.found }
        ensures { OnOk result (self.new ≡ with_found self.old nonterminal) }
    {
        if !self.found[nonterminal] {
            self.queue.push(nonterminal)?;
            self.found[nonterminal] = true;
        }
        Ok(())
    }

    /// Makes a rule wait for a nonterminal.
    fn wait(&mut self, nonterminal: usize, number: usize) -> Result<(), AllocError>
        requires { nonterminal < length self.old.waiting }
        ensures { OnOk result (self.new ≡ with_waiting self.old nonterminal number) }
    {
        self.waiting.add(nonterminal, number)
    }
}

/// The number of symbols at the front of a body that are known to have trees. The first `from` are known to.
pub(crate) fn passing_until(body: &[Symbol], from: usize, found: &[bool], terminals: bool) -> usize
    requires from { from ≤ length body.now }
    requires numbered { All (HasNumberBelow (length found.now)) (map symbol_of body.now) }
    ensures within { result ≤ length body.now }
    ensures passing { SymbolsPass found.now terminals (take from (map symbol_of body.now))
        → SymbolsPass found.now terminals (take result (map symbol_of body.now)) }
    ensures stops { (X : join.Symbol) → slice_get (map symbol_of body.now) result ≡ Some X
        → passes found.now terminals X ≡ false }
{
    let mut at = from;
    while at < body.len() && symbol_passes(body[at], found, terminals) {
        at += 1;
    }
    at
}

/// Whether a symbol is known to have a tree: a terminal if they are allowed, or a nonterminal that was found.
fn symbol_passes(symbol: Symbol, found: &[bool], terminals: bool) -> bool
    requires { HasNumberBelow (length found.now) (symbol_of symbol) }
    ensures { result ≡ passes found.now terminals (symbol_of symbol) }
{
    match symbol {
        Symbol::Terminal(_) => terminals,
        Symbol::Nonterminal(symbol) => found[symbol.0 as usize],
    }
}
