ghost use Rattle.std.specs.Prelude.{◌≡◌, ◌<◌, length, All, IfOk, map, option_map};
ghost use Rattle.ly_subset.specs.Automaton.{IsBreadthFirst, IsTrim};
ghost use Rattle.ly_minim.specs.Smallest.{HaveSameRules, IsReducedAutomaton};
ghost use Rattle.ly_minim.specs.Private.Rules.{HaveRules};

use crate::blocks::coarsest;
use crate::quotient::blocks_met;
use ly_base::{OutOfMemory, RuleNo};
use ly_subset::Dfa;
use std::alloc::{AllocError, Global};

/// Returns an automaton that gives the same rule for every start and string. It is minimal if each state of the input
/// is reachable and leads to a rule. Fails if memory runs out.
pub fn minimise(alloc: Global, dfa: Dfa) -> Result<Dfa, OutOfMemory>
    ensures same { IfOk result (HaveSameRules dfa) }
    ensures reduced { IsTrim dfa → IfOk result IsReducedAutomaton }
    ensures order { IfOk result IsBreadthFirst }
    ensures class_of { IfOk result (λ d. d.class_of ≡ dfa.class_of) }
    ensures classes { IfOk result (λ d. d.classes ≡ dfa.classes) }
    ensures starts { IfOk result (λ d. d.starts ≡ dfa.starts) }
{
    let blocks = coarsest(alloc, &dfa)?;
    let quotient = blocks_met(alloc, &dfa, &blocks)?;
    let rules = rules_of(alloc, &dfa, &quotient.picked)?;
    Ok(dfa.with_states(rules, quotient.entries))
}

/// The rules of some states.
fn rules_of(alloc: Global, dfa: &Dfa, states: &[u32]) -> Result<Vec<Option<RuleNo>>, AllocError>
    requires { All (λ s. s < length dfa.now.rules) states.now }
    ensures { IfOk result (λ r. HaveRules dfa.now states.now (map (option_map (λ i. i.0)) r.items)) }
{
    let mut rules = Vec::with_capacity(alloc, states.len())?;
    for state in states {
        rules.push(dfa.rule(*state))?;
    }
    Ok(rules)
}
