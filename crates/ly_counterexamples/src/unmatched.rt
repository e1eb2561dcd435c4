//! The rules of a lex file that never match.
ghost use Rattle.std.specs.Prelude.{◌≡◌, ◌<◌, ℕ, length, option_map, Contains, IfOk};
ghost use Rattle.ly_subset.specs.Automaton.{next_by_class, rule_of, IsAutomaton, IsBreadthFirst};
ghost use Rattle.ly_counterexamples.specs.Doubts.{AreRising, IsMatched, NeverMatches};
ghost use Rattle.ly_counterexamples.specs.Private.Marks.{AreAdded, AreMarked};
ghost use Rattle.ly_counterexamples.specs.Private.Matched.{LeadsAtOnce};

use crate::marks::Marks;
use ly_base::{OutOfMemory, RuleNo};
use ly_subset::Dfa;
use std::alloc::Global;

/// The rules of a lex file that never match, in ascending order: no string of at least one byte leads to them from any
/// start.
///
/// Returns `OutOfMemory` if an allocation fails.
pub fn unmatched_rules(alloc: Global, rules: usize, dfa: &Dfa) -> Result<Vec<usize>, OutOfMemory>
    requires { IsBreadthFirst dfa.now }
    ensures listed { IfOk result (λ found. AreRising (NeverMatches dfa.now rules) found.items) }
    ensures others { IfOk result (λ found. (i : ℕ) → i < rules → (Contains found.items i → ⊥) → IsMatched dfa.now i) }
{
    let matched = matched_rules(alloc, rules, dfa)?;
    let mut found = Vec::new(alloc);
    for rule in 0..rules {
        if !matched.has(rule) {
            found.push(rule)?;
        }
    }
    Ok(found)
}

/// Which of this many rules match.
pub(crate) fn matched_rules(alloc: Global, rules: usize, dfa: &Dfa) -> Result<Marks, OutOfMemory>
    requires { IsBreadthFirst dfa.now }
    ensures matched { IfOk result (AreMarked rules (IsMatched dfa.now)) }
    ensures whole { IsAutomaton dfa.now }
{
    let states = count_states(dfa)?;
    let mut matched = Marks::new(alloc, rules)?;
    for state in 0..states {
        mark_next(&mut matched, dfa, state);
    }
    Ok(matched)
}

/// How many states a DFA has. A number that exceeds a u32 is reported as out of memory.
pub(crate) fn count_states(dfa: &Dfa) -> Result<u32, OutOfMemory>
    ensures count { IfOk result (λ n. n ≡ length dfa.now.rules) }
    ensures whole { IsAutomaton dfa.now }
{
    u32::try_from(dfa.len()).map_err(|_| OutOfMemory)
}

/// Marks the rules that one byte leads to from a state.
fn mark_next(matched: &mut Marks, dfa: &Dfa, state: u32)
    requires { state < length dfa.now.rules }
    ensures { AreAdded (LeadsAtOnce dfa.now state) matched.old matched.new }
{
    for class in 0..dfa.classes() {
        if let Some(rule) = rule_behind(dfa, state, class) {
            matched.set(rule.0 as usize);
        }
    }
}

/// The rule of the state that a class leads to from another state, if there is one.
fn rule_behind(dfa: &Dfa, state: u32, class: usize) -> Option<RuleNo>
    requires state { state < length dfa.now.rules }
    requires class { class < dfa.now.classes }
    ensures { option_map (λ r. r.0) result ≡ rule_of dfa.now (next_by_class dfa.now state class) }
{
    let next = dfa.next(state, class)?;
    dfa.rule(next)
}
