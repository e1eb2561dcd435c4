//! Finds the first bytes of the matches of rules that return their first byte.
ghost use Rattle.std.specs.Prelude.{◌≡◌, ◌<◌, ◌↔◌, length, option_map, IfOk, IsTrue, OnOk};
ghost use Rattle.ly_subset.specs.Automaton.{IsAutomaton};
ghost use Rattle.ly_counterexamples.specs.Private.FirstBytes.{AreEdgesAdded, AreFirstBefore, AreMoves, BeginsMarked};
ghost use Rattle.ly_counterexamples.specs.Private.FirstBytes.{HasFirst};
ghost use Rattle.ly_counterexamples.specs.Private.FirstBytes.{HasZero, LeadsToFirst, Moves, StandsFirst};
ghost use Rattle.ly_counterexamples.specs.Private.Marks.{AreAdded, AreMarked};

use crate::marks::Marks;
use crate::unmatched::count_states;
use ly_base::{Emitted, OutOfMemory, RuleNo, ScanAction, Sym};
use ly_digraph::{Graph, least};
use ly_sets::SetMatrix;
use ly_subset::Dfa;
use std::alloc::Global;

/// Returns the bytes that begin a match of a rule that returns its first byte.
pub(crate) fn first_bytes(
    alloc: Global,
    actions: &[ScanAction],
    dfa: &Dfa,
) -> Result<Marks, OutOfMemory>
    ensures { IfOk result (AreMarked 256 (StandsFirst actions.now dfa.now)) }
{
    let leading = leading_states(alloc, actions, dfa)?;
    let mut bytes = Marks::new(alloc, 256)?;
    for place in 0..dfa.starts() {
        if let Some(state) = dfa.entry(place) {
            mark_bytes(&mut bytes, dfa, state, &leading);
        }
    }
    Ok(bytes)
}

/// Marks the bytes that lead from a state to a marked state.
fn mark_bytes(bytes: &mut Marks, dfa: &Dfa, state: u32, leading: &Marks)
    requires whole { IsAutomaton dfa.now }
    requires state { state < length dfa.now.rules }
    ensures { AreAdded (BeginsMarked leading.now dfa.now state) bytes.old bytes.new }
{
    for byte in 0..256 {
        if leads(dfa, state, byte as u8, leading) {
            bytes.set(byte);
        }
    }
}

/// Whether a byte leads from a state to a marked state.
fn leads(dfa: &Dfa, state: u32, byte: u8, leading: &Marks) -> bool
    requires { state < length dfa.now.rules }
    ensures { IsTrue result ↔ BeginsMarked leading.now dfa.now state byte }
{
    match dfa.step(state, byte) {
        Some(next) => leading.has(next as usize),
        None => false,
    }
}

/// The states from which some string leads to a rule that returns its first byte.
fn leading_states(alloc: Global, actions: &[ScanAction], dfa: &Dfa) -> Result<Marks, OutOfMemory>
    ensures leading { IfOk result (AreMarked (length dfa.now.rules) (LeadsToFirst actions.now dfa.now)) }
    ensures whole { IsAutomaton dfa.now }
{
    let states = dfa.len();
    let moves = moves(alloc, dfa)?;
    let mut sets = first_states(alloc, actions, dfa)?;
    least(alloc, &moves, &mut sets)?;
    rows_with_zero(alloc, states, &sets)
}

/// The numbers of the rows that contain 0.
fn rows_with_zero(alloc: Global, rows: usize, sets: &SetMatrix) -> Result<Marks, OutOfMemory>
    requires rows { rows ≡ length sets.now.sets }
    requires width { sets.now.width ≡ 1 }
    ensures { IfOk result (AreMarked rows (HasZero sets.now.sets)) }
{
    let mut marks = Marks::new(alloc, rows)?;
    for row in 0..rows {
        if sets.contains(row, Sym(0)) {
            marks.set(row);
        }
    }
    Ok(marks)
}

/// The graph with an edge from a state to each state that a class leads to.
fn moves(alloc: Global, dfa: &Dfa) -> Result<Graph, OutOfMemory>
    ensures { IfOk result (AreMoves dfa.now) }
{
    let mut graph = Graph::new(alloc, dfa.len())?;
    for state in 0..count_states(dfa)? {
        add_moves(&mut graph, dfa, state)?;
    }
    Ok(graph)
}

/// Adds an edge from a state to each state that a class leads to.
fn add_moves(graph: &mut Graph, dfa: &Dfa, state: u32) -> Result<(), OutOfMemory>
    requires nodes { graph.old.nodes ≡ length dfa.now.rules }
    requires state { state < length dfa.now.rules }
    ensures { OnOk result (AreEdgesAdded (Moves dfa.now state) graph.old graph.new) }
{
    for class in 0..dfa.classes() {
        if let Some(next) = dfa.next(state, class) {
            graph.add(state as usize, next as usize)?;
        }
    }
    Ok(())
}

/// A row for each state. It contains 0 if the state's rule returns its first byte.
fn first_states(alloc: Global, actions: &[ScanAction], dfa: &Dfa) -> Result<SetMatrix, OutOfMemory>
    ensures { IfOk result (AreFirstBefore actions.now dfa.now (length dfa.now.rules)) }
{
    let mut sets = SetMatrix::new(alloc, dfa.len(), 1)?;
    for state in 0..count_states(dfa)? {
        if returns_first(actions, dfa.rule(state)) {
            sets.insert(state as usize, Sym(0))?;
        }
    }
    Ok(sets)
}

/// Whether there is a rule, and it returns its first byte.
fn returns_first(actions: &[ScanAction], rule: Option<RuleNo>) -> bool
    ensures { IsTrue result ↔ HasFirst actions.now (option_map (λ r. r.0) rule) }
{
    let Some(rule) = rule else {
        return false;
    };
    match actions.get(rule.0 as usize) {
        Some(action) => action.emits == Emitted::FirstByte,
        None => false,
    }
}
