//! The useful rules: those whose bodies have trees, and whose left sides the start symbol leads to by such rules
//! (Hopcroft and Ullman 1979, 4.4).
ghost use Rattle.std.specs.Prelude.{◌≡◌, ◌<◌, ◌+◌, ◌++◌, ◌∷◌, [], ◌↔◌, ◌⊎◌, ℕ, length, map, true, false, All, IfOk};
ghost use Rattle.std.specs.Prelude.{OnOk, IsTrue};
ghost use Rattle.std.specs.Prelude.{slice_index_or, Err};
ghost use Rattle.ly_base.specs.Trees.{Tree};
ghost use Rattle.ly_sets.specs.NumberSet.{Member};
ghost use Rattle.ly_sets.specs.SetMatrix.{row};
ghost use Rattle.ly_join.specs.Grammar.{IsGrammar, IsRule, GrammarRule, nonterminal, symbol_of};
ghost use Rattle.ly_grammar.specs.Derivations.{IsTree, IsUseful};
ghost use Rattle.ly_grammar.specs.Reduction.{restricted};
ghost use Rattle.ly_grammar.specs.Private.Reach.{IsReachedBy, uses};
ghost use Rattle.ly_grammar.specs.Private.Search.{SymbolsPass, HaveTrees, HasNumberBelow, RuleNumbered};

use crate::fault::GrammarFault;
use crate::search::{passing_until, with_trees};
use ly_base::{OutOfMemory, Sym};
use ly_digraph::{Graph, least};
use ly_join::{Grammar, GrammarRule, Symbol};
use ly_sets::SetMatrix;
use std::alloc::Global;

/// For each rule, whether it is rule 0 or useful.
pub(crate) fn useful_rules(alloc: Global, grammar: &Grammar) -> Result<Vec<bool>, GrammarFault>
    ensures long { IfOk result (λ kept. length kept.items ≡ length grammar.now.rules) }
    ensures exact { IfOk result (λ kept. (p : ℕ) (r : GrammarRule) → IsRule grammar.now p r
        → (slice_index_or kept.items p false ≡ true) ↔ ((p ≡ 0) ⊎ IsUseful grammar.now p)) }
    ensures productive { OnOk result ((d : Tree) × IsTree grammar.now (nonterminal grammar.now.start) d) }
    ensures unproductive { result ≡ Err GrammarFault.StartUnproductive
        → (d : Tree) → IsTree grammar.now (nonterminal grammar.now.start) d → ⊥ }
    ensures lawful { OnOk result (IsGrammar grammar.now) }
{
    let productive = productive_rules(alloc, grammar)?;
    if !productive[0] {
        return Err(GrammarFault::StartUnproductive);
    }
    let sets = reached(alloc, grammar, &productive)?;
    let mut useful = Vec::with_capacity(alloc, productive.len())?;
    for number in 0..productive.len() {
        let left = grammar.rule(number).left().0 as usize;
        useful.push(number == 0 || productive[number] && sets.contains(left, Sym(0)))?;
    }
    Ok(useful)
}

/// For each rule, whether its body has trees.
fn productive_rules(alloc: Global, grammar: &Grammar) -> Result<Vec<bool>, OutOfMemory>
    ensures long { IfOk result (λ found. length found.items ≡ length grammar.now.rules) }
    ensures exact { IfOk result (λ found. (p : ℕ) (r : GrammarRule) → IsRule grammar.now p r
        → (slice_index_or found.items p false ≡ true) ↔ HaveTrees grammar.now true r.body) }
    ensures lawful { OnOk result (IsGrammar grammar.now) }
{
    let rules = grammar.rules().len();
    let all = vec![in alloc; true; rules]?;
    let found = with_trees(alloc, grammar, &all, true)?;
    let mut productive = Vec::with_capacity(alloc, rules)?;
    for number in 0..rules {
        productive.push(body_passes(grammar.rule(number), &found))?;
    }
    Ok(productive)
}

/// Whether all nonterminals of a rule's body have been found.
fn body_passes(rule: &GrammarRule, found: &[bool]) -> bool
    requires { All (HasNumberBelow (length found.now)) rule.now.body }
    ensures { IsTrue result ↔ SymbolsPass found.now true rule.now.body }
{
    let body = rule.body();
    passing_until(body, 0, found, true) == body.len()
}

/// The nonterminals that the start symbol leads to by productive rules. Their rows contain 0.
fn reached(alloc: Global, grammar: &Grammar, productive: &[bool]) -> Result<SetMatrix, OutOfMemory>
    requires { length productive.now ≡ length grammar.now.rules }
    ensures width { IfOk result (λ m. m.width ≡ 1) }
    ensures rows { IfOk result (λ m. length m.sets ≡ grammar.now.accept + 1) }
    ensures exact { IfOk result (λ m. (A : ℕ) → Member (row m.sets A) 0
        ↔ IsReachedBy (restricted productive.now grammar.now) A) }
{
    let nonterminals = grammar.accept().0 as usize + 1;
    let mut graph = Graph::new(alloc, nonterminals)?;
    for number in 0..productive.len() {
        if productive[number] {
            add_uses(&mut graph, grammar.rule(number))?;
        }
    }
    let mut sets = SetMatrix::new(alloc, nonterminals, 1)?;
    sets.insert(grammar.start().0 as usize, Sym(0))?;
    least(alloc, &graph, &mut sets)?;
    Ok(sets)
}

/// Adds an edge from each nonterminal of a rule's body to its left side.
fn add_uses(graph: &mut Graph, rule: &GrammarRule) -> Result<(), OutOfMemory>
    requires { RuleNumbered graph.old.nodes rule.now }
    ensures { OnOk result (graph.new ≡
        record graph.old { edges = graph.old.edges ++ uses rule.now.left rule.now.body }) }
{
    let left = rule.left().0 as usize;
    for symbol in rule.body() {
        add_use(graph, *symbol, left)?;
    }
    Ok(())
}

/// Adds an edge from a symbol, if it is a nonterminal, to a left side.
fn add_use(graph: &mut Graph, symbol: Symbol, left: usize) -> Result<(), OutOfMemory>
    requires numbered { HasNumberBelow graph.old.nodes (symbol_of symbol) }
    requires left { left < graph.old.nodes }
    ensures { OnOk result (graph.new ≡
        record graph.old { edges = graph.old.edges ++ uses left (symbol_of symbol ∷ []) }) }
{
    match symbol {
        Symbol::Terminal(_) => Ok(()),
        Symbol::Nonterminal(part) => graph.add(part.0 as usize, left),
    }
}
