//! The backward edges of an automaton: the predecessors of its states, and the items that wait for its nonterminals.
ghost use Rattle.std.specs.Prelude.{◌≡◌, ◌<◌, ◌+◌, length, map, All, Contains, IfOk, OnOk};
ghost use Rattle.ly_join.specs.Grammar.{symbol_of};
ghost use Rattle.ly_grammar.specs.Private.Search.{HasNumberBelow};
ghost use Rattle.ly_lr0.specs.Automaton.{IsLr0Automaton};
ghost use Rattle.ly_lr0.specs.declared.transition.Transition as code;
ghost use Rattle.ly_counterexamples.specs.Private.Grounds.{ArePredecessors, AreWaiting};
ghost use Rattle.ly_counterexamples.specs.Private.Lists.{ArePredecessorsAdded, ArePredecessorsOf, AreWaitingAdded};
ghost use Rattle.ly_counterexamples.specs.Private.Lists.{IsGround};

use crate::claim::{Claim, Demand};
use crate::lists::Lists;
use ly_base::{OutOfMemory, StateNo};
use ly_join::Symbol;
use ly_lr0::{Item, Lr0, Transition};
use std::alloc::Global;

/// An automaton with its backward edges.
#[derive(Drop)]
pub(crate) struct Ground<'a> {
    /// The automaton.
    pub(crate) lr0: &'a Lr0<'a>,
    /// For each state the states with transitions to it.
    pub(crate) predecessors: Lists<StateNo>,
    /// For each nonterminal the items that have it after their dot.
    pub(crate) waiting: Lists<Item>,
    /// For each state the length of its prefix, the shortest string that leads to it.
    pub(crate) lengths: Vec<usize>,
    /// For each nonterminal how many symbols the bodies have from it on.
    weights: Vec<usize>,
}

impl Ground<'_> {
    /// An upper bound on how many symbols are looked at to find the demands that a demand climbs to.
    pub(crate) fn weight(&self, demand: Demand) -> usize {
        self.weight_of(demand.first)
            .saturating_add(self.weight_of(demand.second))
    }

    /// An upper bound on how many symbols are looked at to find the claims that imply a claim.
    fn weight_of(&self, claim: Claim) -> usize {
        let Claim::With(item) = claim else {
            return 0;
        };
        let rules = self.lr0.reduced().grammar().rules();
        match rules.get(item.rule) {
            Some(rule) if item.dot == 0 => self
                .weights
                .get(rule.left().0 as usize)
                .copied()
                .unwrap_or(0),
            _ => 0,
        }
    }
}

/// Makes the backward edges of an automaton.
pub(crate) fn ground_of<'a>(alloc: Global, lr0: &'a Lr0<'a>) -> Result<Ground<'a>, OutOfMemory>
    ensures automaton { IfOk result (λ g. g.lr0.now ≡ lr0.now) }
    ensures ground { IfOk result IsGround }
{
    let lengths = lengths_of(alloc, lr0)?;
    let waiting = waiting_of(alloc, lr0)?;
    let predecessors = predecessors_of(alloc, lr0)?;
    let weights = weights_of(alloc, lr0)?;
    Ok(Ground {
        lr0,
        predecessors,
        waiting,
        lengths,
        weights,
    })
}

/// For each state the states with transitions to it, in ascending order.
fn predecessors_of(alloc: Global, lr0: &Lr0<'_>) -> Result<Lists<StateNo>, OutOfMemory>
    ensures predecessors { IfOk result (ArePredecessors lr0.now) }
    ensures lawful { IsLr0Automaton lr0.now }
{
    let mut predecessors = Lists::new(alloc, lr0.states())?;
    for state in 0..lr0.states() {
        push_predecessor(&mut predecessors, lr0, StateNo(state as u32))?;
    }
    Ok(predecessors)
}

/// Adds a state to the predecessors of the states that its transitions lead to.
fn push_predecessor(
    predecessors: &mut Lists<StateNo>,
    lr0: &Lr0<'_>,
    predecessor: StateNo,
) -> Result<(), OutOfMemory>
    requires lawful { IsLr0Automaton lr0.now }
    requires state { predecessor.0 < length lr0.now.states }
    requires before { ArePredecessorsOf lr0.now predecessors.old predecessor.0 }
    ensures { OnOk result (ArePredecessorsOf lr0.now predecessors.new (predecessor.0 + 1)) }
{
    push_to_each(predecessors, predecessor, lr0.shifts(predecessor))?;
    push_to_each(predecessors, predecessor, lr0.gotos(predecessor))?;
    Ok(())
}

/// Adds a state to the predecessors of the targets of transitions.
fn push_to_each(
    predecessors: &mut Lists<StateNo>,
    predecessor: StateNo,
    transitions: &[Transition],
) -> Result<(), OutOfMemory>
    requires { (t : code.Transition) → Contains transitions.now t → t.target.0 < length predecessors.old }
    ensures { OnOk result (ArePredecessorsAdded predecessors.old predecessors.new predecessor transitions.now) }
{
    for transition in transitions {
        predecessors.push(transition.target.0 as usize, predecessor)?;
    }
    Ok(())
}

/// For each nonterminal the items that have it after their dot. Only items of rules that are kept count.
fn waiting_of(alloc: Global, lr0: &Lr0<'_>) -> Result<Lists<Item>, OutOfMemory>
    ensures { IfOk result (AreWaiting lr0.now.grammar) }
{
    let reduced = lr0.reduced();
    let grammar = reduced.grammar();
    let mut waiting = Lists::new(alloc, grammar.accept().0 as usize + 1)?;
    for rule in 0..grammar.rules().len() {
        if reduced.is_kept(rule) {
            push_waiting(&mut waiting, grammar.rule(rule).body(), rule)?;
        }
    }
    Ok(waiting)
}

/// Adds the items of a rule that have a nonterminal after their dot.
fn push_waiting(waiting: &mut Lists<Item>, body: &[Symbol], rule: usize) -> Result<(), OutOfMemory>
    requires { All (HasNumberBelow (length waiting.old)) (map symbol_of body.now) }
    ensures { OnOk result (AreWaitingAdded waiting.old waiting.new (map symbol_of body.now) rule (length body.now)) }
{
    for dot in 0..body.len() {
        if let Symbol::Nonterminal(symbol) = body[dot] {
            waiting.push(symbol.0 as usize, Item { rule, dot })?;
        }
    }
    Ok(())
}

/// For each nonterminal how many symbols the bodies have from it on.
fn weights_of(alloc: Global, lr0: &Lr0<'_>) -> Result<Vec<usize>, OutOfMemory> {
    let grammar = lr0.reduced().grammar();
    let mut weights = vec![in alloc; 0; grammar.accept().0 as usize + 1]?;
    for rule in grammar.rules() {
        let body = rule.body();
        for (place, symbol) in body.iter().enumerate() {
            if let Symbol::Nonterminal(left) = symbol
                && let Some(weight) = weights.get_mut(left.0 as usize)
            {
                *weight = body.len().saturating_sub(place).saturating_add(*weight);
            }
        }
    }
    Ok(weights)
}

/// For each state the length of its prefix.
fn lengths_of(alloc: Global, lr0: &Lr0<'_>) -> Result<Vec<usize>, OutOfMemory>
    ensures { IfOk result (λ lengths. length lengths.items ≡ length lr0.now.states) }
{
    let mut lengths = vec![in alloc; 0; lr0.states()]?;
    set_lengths(lr0, &mut lengths);
    Ok(lengths)
}

/// Sets the length of each state's prefix: that of the state's first predecessor plus one. All lengths are 0 before.
/// State 0 keeps 0, as no transition leads to it.
fn set_lengths(lr0: &Lr0<'_>, lengths: &mut [usize])
    ensures { length lengths.new ≡ length lengths.old }
{
    for state in 0..lr0.states() {
        let behind = lengths.get(state).copied().unwrap_or(0).saturating_add(1);
        let state = StateNo(state as u32);
        set_targets(lr0.shifts(state), behind, lengths);
        set_targets(lr0.gotos(state), behind, lengths);
    }
}

/// Sets the prefix lengths of the targets of transitions whose length is still 0.
fn set_targets(transitions: &[Transition], behind: usize, lengths: &mut [usize])
    ensures { length lengths.new ≡ length lengths.old }
{
    for transition in transitions {
        if let Some(length) = lengths.get_mut(transition.target.0 as usize)
            && *length == 0
        {
            *length = behind;
        }
    }
}
