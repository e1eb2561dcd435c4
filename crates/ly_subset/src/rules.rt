ghost use Rattle.std.specs.Prelude.{◌≡◌, ◌<◌, ◌^◌, length, slice_get, All, IfOk, MatchBool, option_map};
ghost use Rattle.ly_position.specs.Nfa.{IsEnd};
ghost use Rattle.ly_subset.specs.Private.Found.{HaveRules, numbers_of};
ghost use Rattle.ly_subset.specs.Private.Members.{listed};
ghost use Rattle.ly_subset.specs.Private.Rules.{lesser_rule, AreEnds, HasEndIn, LiesIn};
ghost use Rattle.ly_subset.specs.Subsets.{AreSets, HasEnd, IsLeastRule};

use crate::chains::Span;
use crate::members::Members;
use crate::sets::Sets;
use ly_base::RuleNo;
use ly_position::{PosNfa, Position};
use std::alloc::{AllocError, Global};

/// For each set the least rule whose pattern ends in it.
pub(crate) fn rules_of(
    alloc: Global,
    nfa: &PosNfa,
    keys: &Sets,
) -> Result<Vec<Option<RuleNo>>, AllocError>
    requires { AreSets (length nfa.now.positions) keys.now }
    ensures { IfOk result (λ r. HaveRules nfa.now keys.now (numbers_of r.items)) }
{
    let ends = ends(alloc, nfa)?;
    let mut rules = Vec::with_capacity(alloc, keys.len())?;
    for number in 0..keys.len() {
        rules.push(rule_of(nfa, &ends, &keys.members(alloc, number)?))?;
    }
    Ok(rules)
}

/// The positions that are end marks, as far as their numbers fit into 32 bits.
fn ends(alloc: Global, nfa: &PosNfa) -> Result<Members, AllocError>
    ensures { IfOk result (λ e. AreEnds nfa.now (2 ^ 32) (listed e)) }
{
    let mut ends = Vec::new(alloc);
    for number in 0..nfa.len().min(1 << 32) {
        let number = number as u32;
        if let Position::Ends(_) = nfa.position(number) {
            ends.push(number)?;
        }
    }
    Ok(Members::List(ends))
}

/// The least rule whose end mark is one of some positions. For a long run only the end marks are examined.
fn rule_of(nfa: &PosNfa, ends: &Members, positions: &Members) -> Option<RuleNo>
    requires ends { AreEnds nfa.now (2 ^ 32) (listed ends.now) }
    requires positions { All (λ p. p < length nfa.now.positions) (listed positions.now) }
    ensures { IsLeastRule (HasEnd nfa.now (listed positions.now)) (option_map (λ r. r.0) result) }
{
    if let Members::Span(span) = positions {
        let long = span.len();
        if ends.len() < long {
            return least_end(nfa, ends, Some(*span));
        }
    }
    least_end(nfa, positions, None)
}

/// The least rule whose end mark is one of some positions, and in the run `within` if there is one.
fn least_end(nfa: &PosNfa, positions: &Members, within: Option<Span>) -> Option<RuleNo>
    requires { All (λ p. p < length nfa.now.positions) (listed positions.now) }
    ensures { IsLeastRule (HasEndIn nfa.now within (listed positions.now)) (option_map (λ r. r.0) result) }
{
    let mut least = None;
    for place in 0..positions.len() {
        let number = positions.at(place);
        if lies_in(within, number) {
            if let Position::Ends(rule) = nfa.position(number) {
                least = Some(lesser(least, rule));
            }
        }
    }
    least
}

/// Whether a position is in a run, or there is no run.
fn lies_in(span: Option<Span>, number: u32) -> bool
    ensures { MatchBool result (LiesIn span number) (LiesIn span number → ⊥) }
{
    match span {
        Some(span) => span.contains(number),
        None => true,
    }
}

/// The lesser of a rule and `least`, if there is one.
fn lesser(least: Option<RuleNo>, rule: RuleNo) -> RuleNo
    ensures { result.0 ≡ lesser_rule (option_map (λ r. r.0) least) rule.0 }
{
    match least {
        Some(before) if before < rule => before,
        _ => rule,
    }
}
