//! Sentences with two trees, given by their rules, that take both actions of a conflict.
ghost use Rattle.std.specs.Prelude.{◌≡◌, ◌↔◌, IfOk, IsTrue, MatchOption, Some, option_map};
ghost use Rattle.ly_resolve.specs.Values.{action_from, conflict_from, IsInside, kind_from};
ghost use Rattle.ly_counterexamples.specs.Examples.{rival as rival_of};
ghost use Rattle.ly_counterexamples.specs.Moves.{HaveNoneAt, IsAmbiguousAt, move_before, reduces};
ghost use Rattle.ly_counterexamples.specs.Moves.{shifted as shifted_by};
ghost use Rattle.ly_counterexamples.specs.Moves.{TakeBoth};
ghost use Rattle.ly_counterexamples.specs.Sentences.{numbers_of};
ghost use Rattle.ly_counterexamples.specs.Private.Leftmost.{move_from, moves_from};

use crate::moves::{Move, moves_by};
use crate::parses::{next_shifted, shared_length, shifted, state_behind, string_behind};
use ly_base::{OutOfMemory, Sym};
use ly_resolve::{Action, Conflict, ConflictKind, Resolved};
use std::alloc::{AllocError, Global};

/// Returns the sentence that has two trees, if their parses take both actions of a conflict at its place. Each tree is
/// given by the rules of its leftmost derivation in order. The first tree takes the rival of the conflict's rule, the
/// second one the rule. Returns `None` if these are not two trees of one sentence, or don't take both actions.
///
/// Returns `OutOfMemory` if an allocation fails.
pub fn conflicting_sentence(
    alloc: Global,
    resolved: &Resolved<'_>,
    conflict: &Conflict,
    one: &[usize],
    other: &[usize],
) -> Result<Option<Vec<Sym>>, OutOfMemory>
    requires { IsInside resolved.now.automaton conflict.now }
    ensures { IfOk result (λ found. MatchOption found
        (HaveNoneAt resolved.now (conflict_from resolved.now.automaton conflict.now) one.now other.now)
        (λ sentence. IsAmbiguousAt resolved.now (conflict_from resolved.now.automaton conflict.now) one.now other.now
        (numbers_of sentence.items))) }
{
    let grammar = resolved.spec().grammar();
    let Some(mut first) = moves_by(alloc, grammar, one)? else {
        return Ok(None);
    };
    let Some(mut second) = moves_by(alloc, grammar, other)? else {
        return Ok(None);
    };
    let sentence = shifted(alloc, &first)?;
    if shifted(alloc, &second)? != sentence {
        return Ok(None);
    }
    // a parser that accepts shifts the end last
    first.push(Move::Shift(Sym(0)))?;
    second.push(Move::Shift(Sym(0)))?;
    if !take_both(alloc, resolved, conflict, &first, &second)? {
        return Ok(None);
    }
    Ok(Some(sentence))
}

/// Whether two parses of the same terminals take both actions of a conflict.
fn take_both(
    alloc: Global,
    resolved: &Resolved<'_>,
    conflict: &Conflict,
    one: &[Move],
    other: &[Move],
) -> Result<bool, AllocError>
    requires inside { IsInside resolved.now.automaton conflict.now }
    requires same { shifted_by (moves_from one.now) ≡ shifted_by (moves_from other.now) }
    ensures { IfOk result (λ both. IsTrue both ↔ TakeBoth resolved.now
        (conflict_from resolved.now.automaton conflict.now) (moves_from one.now) (moves_from other.now)) }
{
    let lr0 = resolved.lr0();
    let _states = lr0.states();
    let shared = shared_length(one, other);
    let Some(first) = one.get(shared) else {
        return Ok(false);
    };
    let Some(second) = other.get(shared) else {
        return Ok(false);
    };
    if !are_actions(conflict, *first, *second) {
        return Ok(false);
    }
    let Some(next) = next_shifted(&one[shared..]) else {
        return Ok(false);
    };
    if next != conflict.terminal {
        return Ok(false);
    }
    let grammar = resolved.spec().grammar();
    let Some(string) = string_behind(alloc, grammar, &one[..shared])? else {
        return Ok(false);
    };
    match state_behind(lr0, &string) {
        Some(state) => Ok(state == conflict.state),
        None => Ok(false),
    }
}

/// Whether the first move is the rival of a conflict's rule, and the second one reduces by that rule.
fn are_actions(conflict: &Conflict, first: Move, second: Move) -> bool
    ensures { IsTrue result ↔ ((move_before conflict.now.terminal.0
        (rival_of (kind_from conflict.now.kind) (action_from conflict.now.choice)) ≡ Some (move_from first))
        × (move_from second ≡ reduces conflict.now.rule.0)) }
{
    match rival(conflict) {
        Some(rival) => first == rival && second == Move::Reduce(conflict.rule.0 as usize),
        None => false,
    }
}

/// The move of the rival of a conflict's rule. An error is no move.
fn rival(conflict: &Conflict) -> Option<Move>
    ensures { option_map move_from result ≡ move_before conflict.now.terminal.0
        (rival_of (kind_from conflict.now.kind) (action_from conflict.now.choice)) }
{
    match (conflict.kind, conflict.choice) {
        (ConflictKind::ShiftReduce, _) | (_, Action::Shift) => Some(Move::Shift(conflict.terminal)),
        (ConflictKind::ReduceReduce, Action::Reduce(rule)) => {
            Some(Move::Reduce(rule.0 as usize))
        }
        (ConflictKind::ReduceReduce, Action::Error) => None,
    }
}
