//! The FIRST sets: the terminals that may begin what a nonterminal derives. They are the least sets that contain the
//! terminals at the front of its rules' bodies and those of the nonterminals at the front (DeRemer and Pennello's least
//! sets, 1982, over the graph of these nonterminals).
ghost use Rattle.std.specs.Prelude.{◌≡◌, ◌<◌, ◌+◌, ◌++◌, ◌↔◌, ◌∷◌, [], ℕ, length, map, All, IfOk, OnOk};
ghost use Rattle.ly_sets.specs.NumberSet.{Member};
ghost use Rattle.ly_sets.specs.SetMatrix.{row};
ghost use Rattle.ly_join.specs.Grammar.{symbol_of};
ghost use Rattle.ly_grammar.specs.Reduction.{restricted};
ghost use Rattle.ly_grammar.specs.Private.First.{opening, parts, AreAdded, HasPlace, RuleHasPlaces, Starts};
ghost use Rattle.ly_grammar.specs.Private.Search.{HasNumberBelow};

use crate::search::passing_until;
use ly_base::OutOfMemory;
use ly_digraph::{Graph, least};
use ly_join::{Grammar, GrammarRule, Symbol};
use ly_sets::SetMatrix;
use std::alloc::Global;

/// For each nonterminal, the terminals that begin what it derives by the kept rules.
pub(crate) fn first_sets(
    alloc: Global,
    grammar: &Grammar,
    kept: &[bool],
    nullable: &[bool],
) -> Result<SetMatrix, OutOfMemory>
    requires kept { length kept.now ≡ length grammar.now.rules }
    requires nullable { length nullable.now ≡ grammar.now.accept + 1 }
    ensures width { IfOk result (λ m. m.width ≡ grammar.now.terminals) }
    ensures rows { IfOk result (λ m. length m.sets ≡ grammar.now.accept + 1) }
    ensures exact { IfOk result (λ m. (A t : ℕ) → Member (row m.sets A) t
        ↔ Starts (restricted kept.now grammar.now) nullable.now A t) }
{
    let nonterminals = grammar.accept().0 as usize + 1;
    let mut graph = Graph::new(alloc, nonterminals)?;
    let mut sets = SetMatrix::new(alloc, nonterminals, grammar.terminals() as usize)?;
    for number in 0..kept.len() {
        if kept[number] {
            add_firsts(&mut graph, &mut sets, grammar.rule(number), nullable)?;
        }
    }
    least(alloc, &graph, &mut sets)?;
    Ok(sets)
}

/// Adds the front of a rule's body: its terminal to the row of the left side, and an edge from the left side to each of
/// its nonterminals.
fn add_firsts(
    graph: &mut Graph,
    sets: &mut SetMatrix,
    rule: &GrammarRule,
    nullable: &[bool],
) -> Result<(), OutOfMemory>
    requires places { RuleHasPlaces sets.old.width graph.old.nodes rule.now }
    requires rows { length sets.old.sets ≡ graph.old.nodes }
    requires nullable { length nullable.now ≡ graph.old.nodes }
    ensures graph { OnOk result (graph.new ≡ record graph.old {
      edges = graph.old.edges ++ parts rule.now.left (opening nullable.now rule.now.body);
    }) }
    ensures sets { OnOk result (AreAdded sets.old sets.new rule.now.left (opening nullable.now rule.now.body)) }
{
    let left = rule.left().0 as usize;
    for symbol in opening(rule.body(), nullable) {
        add_first(graph, sets, *symbol, left)?;
    }
    Ok(())
}

/// Adds a symbol of the front of a body: a terminal to the row of the left side, or an edge to a nonterminal.
fn add_first(
    graph: &mut Graph,
    sets: &mut SetMatrix,
    symbol: Symbol,
    left: usize,
) -> Result<(), OutOfMemory>
    requires place { HasPlace sets.old.width graph.old.nodes (symbol_of symbol) }
    requires left { left < graph.old.nodes }
    requires rows { length sets.old.sets ≡ graph.old.nodes }
    ensures graph { OnOk result (graph.new ≡
        record graph.old { edges = graph.old.edges ++ parts left (symbol_of symbol ∷ []) }) }
    ensures sets { OnOk result (AreAdded sets.old sets.new left (symbol_of symbol ∷ [])) }
{
    match symbol {
        Symbol::Terminal(terminal) => {
            sets.insert(left, terminal)?;
            Ok(())
        }
        Symbol::Nonterminal(part) => graph.add(left, part.0 as usize),
    }
}

/// The symbols of a body up to and including the first that isn't a nullable nonterminal.
fn opening<'a>(body: &'a [Symbol], nullable: &[bool]) -> &'a [Symbol]
    requires { All (HasNumberBelow (length nullable.now)) (map symbol_of body.now) }
    ensures { map symbol_of result.now ≡ opening nullable.now (map symbol_of body.now) }
{
    let passing = passing_until(body, 0, nullable, false);
    if passing < body.len() {
        &body[..passing + 1]
    } else {
        body
    }
}
