//! The tokens and literals that no rule of the lex file returns.
ghost use Rattle.std.specs.Prelude.{◌≡◌, ◌<◌, ℕ, length, map, slice_get, Some, IfOk};
ghost use Rattle.ly_join.specs.Terminals.{byte as byte_terminal, terminal_from, IsNumbered};
ghost use Rattle.ly_subset.specs.Automaton.{IsBreadthFirst};
ghost use Rattle.ly_counterexamples.specs.Doubts.{AreRising, IsUnreturned};
ghost use Rattle.ly_counterexamples.specs.Private.Marks.{AreAdded};
ghost use Rattle.ly_counterexamples.specs.Private.Unmarked.{IsLiteralOf, ReturnsItself};

use crate::first_bytes::first_bytes;
use crate::marks::Marks;
use crate::unmatched::matched_rules;
use crate::unused::unmarked_terminals;
use ly_base::{Emitted, OutOfMemory, ScanAction, Sym};
use ly_join::{Spec, TerminalName};
use ly_subset::Dfa;
use std::alloc::Global;

/// The tokens and literals that no match of the lex file returns, in ascending order. No rule that returns the token
/// matches, and no match of a rule that returns its first byte begins with the literal's byte.
///
/// Returns `OutOfMemory` if an allocation fails.
pub fn unreturned_terminals(alloc: Global, spec: &Spec, dfa: &Dfa) -> Result<Vec<Sym>, OutOfMemory>
    requires { IsBreadthFirst dfa.now }
    ensures { IfOk result (λ found. AreRising (IsUnreturned spec.now dfa.now) (map (λ t. t.0) found.items)) }
{
    let actions = spec.scanner();
    let matched = matched_rules(alloc, actions.len(), dfa)?;
    let bytes = first_bytes(alloc, actions, dfa)?;
    let mut returned = Marks::new(alloc, spec.terminals().len())?;
    mark_own(&mut returned, actions, &matched);
    mark_literals(&mut returned, spec.terminals(), &bytes);
    unmarked_terminals(alloc, spec, &returned)
}

/// Marks the terminals that the actions of marked rules name.
fn mark_own(returned: &mut Marks, actions: &[ScanAction], matched: &Marks)
    ensures { AreAdded (λ t. (i : ℕ) × (i < length actions.now) × ReturnsItself actions.now matched.now i t)
        returned.old returned.new }
{
    for rule in 0..actions.len() {
        if let Emitted::Terminal(terminal) = actions[rule].emits {
            if matched.has(rule) {
                returned.set(terminal.0 as usize);
            }
        }
    }
}

/// Marks the literals of marked bytes.
fn mark_literals(returned: &mut Marks, names: &[TerminalName], bytes: &Marks)
    ensures { AreAdded (IsLiteralOf (map terminal_from names.now) bytes.now) returned.old returned.new }
{
    for number in 0..names.len() {
        if let TerminalName::Literal(byte) = &names[number] {
            if bytes.has(usize::from(*byte)) {
                returned.set(number);
            }
        }
    }
}
