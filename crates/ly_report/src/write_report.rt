ghost use Rattle.std.specs.Prelude.{◌≡◌, ◌<◌, ◌++◌, ℕ, List, length, take, map, All, Err, IfOk, IsErrOf, OnOk};
ghost use Rattle.std.specs.Io.KnownBytes.{Appends};
ghost use Rattle.ly_print.specs.Device.{next_count};
ghost use Rattle.ly_grammar.specs.Reduction.{KeepsUseful};
ghost use Rattle.ly_join.specs.Grammar.{IsGrammar};
ghost use Rattle.ly_resolve.specs.Values.{conflict_from};
ghost use Rattle.ly_report.specs.Report.{conflicts_text, removed_count, removed_text, AreRemoved, IsReport};
ghost use Rattle.ly_report.specs.Private.Symbols.{IsTellable};

use crate::counts::{ConflictCounts, push_counts};
use crate::fault::ReportFault;
use crate::line::{push_conflict, push_decimal, push_removed};
use ly_base::OutOfMemory;
use ly_grammar::Reduced;
use ly_join::{Grammar, Spec};
use ly_lr0::Lr0;
use ly_print::{Sink, write_whole};
use ly_resolve::{Conflicts, Resolved};
use std::alloc::{AllocError, Global};

/// Writes the report of a specification: the removed rules, the counts of conflicts, and the conflicts by state,
/// terminal, kind and rule. Nothing is written before the whole report has been made.
///
/// The errors are those of `ReportFault`.
pub fn report<W: Sink>(
    alloc: Global,
    resolved: &Resolved<'_>,
    writer: &mut W,
) -> Result<(), ReportFault>
    ensures whole { OnOk result ((text : List ℕ) × IsReport resolved.now.spec text
        × Appends (W.contents writer.old) (W.contents writer.new) text) }
    ensures beginning { (written : ℕ) → result ≡ Err (ReportFault.Write written) → (text : List ℕ)
        × IsReport resolved.now.spec text × (written < length text)
        × Appends (W.contents writer.old) (W.contents writer.new) (take written text) }
    ensures failed { (written : ℕ) → result ≡ Err (ReportFault.Write written)
        → W.failures writer.new ≡ next_count (W.failures writer.old) }
    ensures held { OnOk result (W.failures writer.new ≡ W.failures writer.old) }
    ensures untouched { IsErrOf result ReportFault.OutOfMemory → writer.new ≡ writer.old }
{
    let text = report_text(alloc, resolved)?;
    write_whole(writer, &text)?;
    Ok(())
}

/// The bytes of the report that `report` writes. It fails if an allocation fails.
pub fn report_text(alloc: Global, resolved: &Resolved<'_>) -> Result<Vec<u8>, OutOfMemory>
    ensures { IfOk result (λ text. IsReport resolved.now.spec text.items) }
{
    let spec = resolved.spec();
    let lr0 = resolved.lr0();
    let removed = removed_rules(alloc, spec.grammar(), lr0.reduced())?;
    let mut text = Vec::new(alloc);
    push_removed_rules(&mut text, spec, &removed)?;
    push_conflicts(alloc, &mut text, spec, lr0, resolved.conflicts())?;
    Ok(text)
}

/// The numbers of the removed rules, in rising order.
fn removed_rules(
    alloc: Global,
    grammar: &Grammar,
    reduced: &Reduced<'_>,
) -> Result<Vec<usize>, AllocError>
    requires { KeepsUseful grammar.now reduced.now.grammar }
    ensures these { IfOk result (λ removed. AreRemoved grammar.now removed.items) }
    ensures lawful { OnOk result (IsGrammar grammar.now) }
{
    let mut removed = Vec::new(alloc);
    for number in 0..grammar.rules().len() {
        if !reduced.is_kept(number) {
            removed.push(number)?;
        }
    }
    Ok(removed)
}

/// Appends the number of removed rules, and a line for each.
fn push_removed_rules(out: &mut Vec<u8>, spec: &Spec, removed: &[usize]) -> Result<(), AllocError>
    requires { AreRemoved spec.now.grammar removed.now }
    ensures { OnOk result (out.new.items ≡ out.old.items ++ removed_text spec.now removed.now) }
{
    push_removed_count(out, removed.len())?;
    for number in removed {
        push_removed(out, spec, *number)?;
    }
    Ok(())
}

/// Appends the line with the number of removed rules.
fn push_removed_count(out: &mut Vec<u8>, count: usize) -> Result<(), AllocError>
    ensures { OnOk result (out.new.items ≡ out.old.items ++ removed_count count) }
{
    out.extend_from_slice(b"removed rules: ")?;
    push_decimal(out, count)?;
    out.push(b'\n')?;
    Ok(())
}

/// Appends the number of conflicts, and a line for each.
fn push_conflicts(
    alloc: Global,
    out: &mut Vec<u8>,
    spec: &Spec,
    lr0: &Lr0<'_>,
    conflicts: &Conflicts,
) -> Result<(), OutOfMemory>
    requires { All (IsTellable spec.now lr0.now) conflicts.now }
    ensures { OnOk result (out.new.items
        ≡ out.old.items ++ conflicts_text spec.now (map (conflict_from lr0.now) conflicts.now)) }
{
    push_counts(out, &ConflictCounts::among(conflicts))?;
    let mut run = 0;
    for index in 0..conflicts.len() {
        if let Some(conflict) = conflicts.get_near(index, &mut run) {
            push_conflict(alloc, out, spec, lr0, &conflict)?;
        }
    }
    Ok(())
}
