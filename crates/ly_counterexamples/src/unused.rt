//! The tokens and literals that no rule uses.
ghost use Rattle.std.specs.Prelude.{◌≡◌, ◌↔◌, map, Contains, IfOk, IsTrue};
ghost use Rattle.ly_join.specs.Grammar.{symbol_of, terminal as terminal_of};
ghost use Rattle.ly_join.specs.Terminals.{terminal_from};
ghost use Rattle.ly_counterexamples.specs.Doubts.{AreRising, IsNamed, IsUnused};
ghost use Rattle.ly_counterexamples.specs.Private.Marks.{AreAdded};
ghost use Rattle.ly_counterexamples.specs.Private.Unmarked.{IsUnmarked};

use crate::marks::Marks;
use ly_base::{OutOfMemory, Sym};
use ly_join::{Spec, Symbol, TerminalName};
use std::alloc::Global;

/// The tokens and literals that are in no body of a rule, in ascending order.
///
/// Returns `OutOfMemory` if an allocation fails.
pub fn unused_terminals(alloc: Global, spec: &Spec) -> Result<Vec<Sym>, OutOfMemory>
    ensures { IfOk result (λ found. AreRising (IsUnused spec.now) (map (λ t. t.0) found.items)) }
{
    let mut used = Marks::new(alloc, spec.terminals().len())?;
    for rule in spec.grammar().rules() {
        mark_body(&mut used, rule.body());
    }
    unmarked_terminals(alloc, spec, &used)
}

/// Marks the terminals of a body.
fn mark_body(used: &mut Marks, body: &[Symbol])
    ensures { AreAdded (λ t. Contains (map symbol_of body.now) (terminal_of t)) used.old used.new }
{
    for symbol in body {
        if let Symbol::Terminal(terminal) = symbol {
            used.set(terminal.0 as usize);
        }
    }
}

/// The tokens and literals that aren't marked, in ascending order.
pub(crate) fn unmarked_terminals(
    alloc: Global,
    spec: &Spec,
    marks: &Marks,
) -> Result<Vec<Sym>, OutOfMemory>
    ensures { IfOk result (λ found. AreRising (IsUnmarked spec.now marks.now) (map (λ t. t.0) found.items)) }
{
    let names = spec.terminals();
    let mut found = Vec::new(alloc);
    for number in 0..spec.grammar().terminals() {
        if is_named(&names[number as usize]) && !marks.has(number as usize) {
            found.push(Sym(number))?;
        }
    }
    Ok(found)
}

/// Whether a terminal is a token or a literal.
fn is_named(name: &TerminalName) -> bool
    ensures { IsTrue result ↔ IsNamed (terminal_from name.now) }
{
    matches!(name, TerminalName::Token(_) | TerminalName::Literal(_))
}
