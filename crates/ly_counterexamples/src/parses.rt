//! Parses as lists of moves: what they shift, how many moves two of them share, and the string and the state that moves
//! lead to.
ghost use Rattle.std.specs.Prelude.{◌≡◌, ◌≢◌, ◌≤◌, ◌<◌, ◌↔◌, ◌∷◌, ◌++◌, ℕ, IfOk, List, MatchBool, MatchOption, []};
ghost use Rattle.std.specs.Prelude.{length, option_map, slice_get};
ghost use Rattle.ly_join.specs.Grammar.{Symbol as symbol};
ghost use Rattle.ly_lr0.specs.Automaton.{goto_of, IsLr0Automaton, Reaches};
ghost use Rattle.ly_counterexamples.specs.Moves.{Lead, Move as made, reduces, shifted as shifted_by};
ghost use Rattle.ly_counterexamples.specs.Sentences.{numbers_of};
ghost use Rattle.ly_counterexamples.specs.Private.Leftmost.{move_from, moves_from};
ghost use Rattle.ly_counterexamples.specs.Private.Parses.{IsNext, LeadNowhere, ReachesNone, string_of};

use crate::moves::Move;
use ly_base::{StateNo, Sym};
use ly_join::{Grammar, Symbol};
use ly_lr0::Lr0;
use std::alloc::{AllocError, Global};

/// The terminals that moves shift.
pub(crate) fn shifted(alloc: Global, moves: &[Move]) -> Result<Vec<Sym>, AllocError>
    ensures { IfOk result (λ terminals. numbers_of terminals.items ≡ shifted_by (moves_from moves.now)) }
{
    let mut terminals = Vec::new(alloc);
    for step in moves {
        match step {
            Move::Shift(terminal) => terminals.push(*terminal)?,
            Move::Reduce(_) => {}
        }
    }
    Ok(terminals)
}

/// The first terminal that moves shift, if any.
pub(crate) fn next_shifted(moves: &[Move]) -> Option<Sym>
    ensures { IsNext (moves_from moves.now) (option_map (λ t. t.0) result) }
{
    for step in moves {
        match step {
            Move::Shift(terminal) => return Some(*terminal),
            Move::Reduce(_) => {}
        }
    }
    None
}

/// How many moves two parses share from the start on.
pub(crate) fn shared_length(one: &[Move], other: &[Move]) -> usize
    ensures same { (k : ℕ) → k < result → slice_get one.now k ≡ slice_get other.now k }
    ensures within { result ≤ length one.now }
    ensures apart { result < length one.now → slice_get one.now result ≢ slice_get other.now result }
{
    for (place, first) in one.iter().enumerate() {
        let Some(second) = other.get(place) else {
            return place;
        };
        if first != second {
            return place;
        }
    }
    one.len()
}

/// The string that moves lead to, its first symbol first. `None` if a move is impossible.
pub(crate) fn string_behind(
    alloc: Global,
    grammar: &Grammar,
    moves: &[Move],
) -> Result<Option<Vec<Symbol>>, AllocError>
    ensures { IfOk result (λ found. MatchOption found (LeadNowhere grammar.now [] (moves_from moves.now))
        (λ string. Lead grammar.now [] (moves_from moves.now) (string_of string.items))) }
{
    let mut string = Vec::new(alloc);
    for step in moves {
        if !make(grammar, &mut string, *step)? {
            return Ok(None);
        }
    }
    Ok(Some(string))
}

/// Makes a move at the end of a string. Returns whether it is possible there.
fn make(grammar: &Grammar, string: &mut Vec<Symbol>, step: Move) -> Result<bool, AllocError>
    ensures { IfOk result (λ possible. MatchBool possible
        ((rest : List made) (h : List symbol) → Lead grammar.now (string_of string.old.items) (move_from step ∷ rest) h
        ↔ Lead grammar.now (string_of string.new.items) rest h)
        ((rest : List made) (h : List symbol) → Lead grammar.now (string_of string.old.items) (move_from step ∷ rest) h
        → ⊥)) }
{
    match step {
        Move::Shift(terminal) => {
            string.push(Symbol::Terminal(terminal))?;
            Ok(true)
        }
        Move::Reduce(number) => reduce_by(grammar, string, number),
    }
}

/// Replaces the body of a rule at the end of a string by the rule's left side. Returns whether the body was there.
fn reduce_by(grammar: &Grammar, string: &mut Vec<Symbol>, number: usize) -> Result<bool, AllocError>
    ensures { IfOk result (λ reduced. MatchBool reduced
        ((rest : List made) (h : List symbol) → Lead grammar.now (string_of string.old.items) (reduces number ∷ rest) h
        ↔ Lead grammar.now (string_of string.new.items) rest h)
        ((rest : List made) (h : List symbol) → Lead grammar.now (string_of string.old.items) (reduces number ∷ rest) h
        → ⊥)) }
{
    let Some(rule) = grammar.rules().get(number) else {
        return Ok(false);
    };
    if !string.ends_with(rule.body()) {
        return Ok(false);
    }
    string.truncate(string.len() - rule.body().len());
    string.push(Symbol::Nonterminal(rule.left()))?;
    Ok(true)
}

/// The state that a string leads to, its first symbol first. `None` if there is no such state.
pub(crate) fn state_behind(lr0: &Lr0<'_>, string: &[Symbol]) -> Option<StateNo>
    requires { IsLr0Automaton lr0.now }
    ensures { MatchOption result (ReachesNone lr0.now (string_of string.now))
        (λ s. Reaches (goto_of lr0.now) 0 (string_of string.now) s.0) }
{
    let mut state = StateNo(0);
    for symbol in string {
        state = lr0.goto(state, *symbol)?;
    }
    Some(state)
}
