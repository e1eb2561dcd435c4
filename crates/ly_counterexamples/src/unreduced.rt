//! The rules of a grammar that are never reduced.
ghost use Rattle.std.specs.Prelude.{◌≡◌, length, IfOk};
ghost use Rattle.ly_counterexamples.specs.Doubts.{AreRising, IsReducedBy, NeverReduces};
ghost use Rattle.ly_counterexamples.specs.Private.Marks.{AreAdded, AreMarked};
ghost use Rattle.ly_counterexamples.specs.Private.Reductions.{ReducesIn};

use crate::marks::Marks;
use ly_base::{OutOfMemory, StateNo};
use ly_resolve::{Action, Resolved, TerminalAction};
use std::alloc::Global;

/// The useful rules that are reduced at no string of symbols before any terminal, in ascending order. They lose each
/// reduction to precedence or in a conflict.
///
/// Returns `OutOfMemory` if an allocation fails.
pub fn unreduced_rules(alloc: Global, resolved: &Resolved<'_>) -> Result<Vec<usize>, OutOfMemory>
    ensures { IfOk result (λ found. AreRising (NeverReduces resolved.now) found.items) }
{
    let reduced = reduced_rules(alloc, resolved)?;
    let kept = resolved.lr0().reduced();
    let mut found = Vec::new(alloc);
    for rule in 1..resolved.spec().grammar().rules().len() {
        if kept.is_kept(rule) && !reduced.has(rule) {
            found.push(rule)?;
        }
    }
    Ok(found)
}

/// The rules that are reduced somewhere.
fn reduced_rules(alloc: Global, resolved: &Resolved<'_>) -> Result<Marks, OutOfMemory>
    ensures { IfOk result (AreMarked (length resolved.now.spec.grammar.rules) (IsReducedBy resolved.now)) }
{
    let rules = resolved.spec().grammar().rules().len();
    let mut reduced = Marks::new(alloc, rules)?;
    for state in 0..resolved.lr0().states() {
        mark_reductions(&mut reduced, resolved.row(StateNo(state as u32)));
    }
    Ok(reduced)
}

/// Marks the rules that the entries of a row reduce by.
fn mark_reductions(reduced: &mut Marks, row: &[TerminalAction])
    ensures { AreAdded (ReducesIn row.now) reduced.old reduced.new }
{
    for entry in row {
        if let Action::Reduce(rule) = entry.action {
            reduced.set(rule.0 as usize);
        }
    }
}
