//! Whether the parser reaches a conflict on some tokens, given how its other conflicts are resolved.
use ly_analysis::{body_of, goto_of};
use ly_base::{OutOfMemory, StateNo, Sym};
use ly_join::Symbol;
use ly_resolve::{Action, Conflict, Resolved};
use std::alloc::Global;

/// The greatest number of steps.
const STEPS: usize = 20_000;

/// Whether the parser reaches the state of a conflict on these tokens, with the conflict's terminal next.
pub(crate) fn is_met(
    alloc: Global,
    resolved: &Resolved<'_>,
    conflict: &Conflict,
    tokens: &[Sym],
) -> Result<bool, OutOfMemory> {
    let mut stack = Vec::new(alloc);
    stack.push(StateNo(0))?;
    let mut left = tokens;
    for _ in 0..STEPS {
        let state = stack.last().copied().unwrap_or(StateNo(0));
        let ahead = left.first().copied().unwrap_or(conflict.terminal);
        if left.is_empty() && state == conflict.state {
            return Ok(true);
        }
        match action_of(resolved, state, ahead) {
            Some(Action::Reduce(rule)) => {
                if !reduce_by(resolved, &mut stack, rule.0 as usize)? {
                    return Ok(false);
                }
            }
            Some(Action::Shift) if !left.is_empty() => {
                let Some(next) = goto_of(resolved.lr0(), state, Symbol::Terminal(ahead)) else {
                    return Ok(false);
                };
                stack.push(next)?;
                left = left.split_first().map_or(&[], |(_, rest)| rest);
            }
            _ => return Ok(false),
        }
    }
    Ok(false)
}

/// The action in a state before a terminal; `None` if the terminal is a syntax error.
fn action_of(resolved: &Resolved<'_>, state: StateNo, terminal: Sym) -> Option<Action> {
    if (state.0 as usize) >= resolved.lr0().states() {
        return None;
    }
    let _spec = resolved.spec();
    for entry in resolved.row(state) {
        if entry.terminal == terminal {
            return Some(entry.action);
        }
    }
    None
}

/// Reduces by a rule. Returns whether that is possible.
fn reduce_by(
    resolved: &Resolved<'_>,
    stack: &mut Vec<StateNo>,
    rule: usize,
) -> Result<bool, OutOfMemory> {
    let grammar = resolved.lr0().reduced().grammar();
    let Some(left) = grammar.rules().get(rule).map(|rule| rule.left()) else {
        return Ok(false);
    };
    let kept = stack.len().saturating_sub(body_of(grammar, rule).len());
    stack.truncate(kept);
    let Some(below) = stack.last().copied() else {
        return Ok(false);
    };
    let Some(next) = goto_of(resolved.lr0(), below, Symbol::Nonterminal(left)) else {
        return Ok(false);
    };
    stack.push(next)?;
    Ok(true)
}
