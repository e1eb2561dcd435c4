//! The lines of a report.
ghost use Rattle.std.specs.Prelude.{◌≡◌, ◌<◌, ◌≤◌, ◌++◌, map, slice_get, All, OnOk, length};
ghost use Rattle.std.specs.Fmt.{decimal};
ghost use Rattle.ly_join.specs.Grammar.{symbol_of};
ghost use Rattle.ly_lr0.specs.Automaton.{prefix_of};
ghost use Rattle.ly_resolve.specs.Values.{action_from, conflict_from, kind_from};
ghost use Rattle.ly_report.specs.Report.{action_text, choice_text, conflict_line, kind_name, place_text, removed_line};
ghost use Rattle.ly_report.specs.Report.{rule_text};
ghost use Rattle.ly_report.specs.Private.Symbols.{IsNamed, IsTellable};

use crate::name::{push_behind_spaces, push_spaced, push_symbol};
use ly_base::{OutOfMemory, RuleNo, Sym};
use ly_join::{Spec, Symbol};
use ly_lr0::Lr0;
use ly_resolve::{Action, Conflict, ConflictKind};
use std::alloc::{AllocError, Global};
use std::io::Write;

/// Appends the line of a removed rule.
pub(crate) fn push_removed(out: &mut Vec<u8>, spec: &Spec, number: usize) -> Result<(), AllocError>
    requires some { 1 ≤ number }
    requires within { number < length spec.now.grammar.rules }
    ensures { OnOk result (out.new.items ≡ out.old.items ++ removed_line spec.now number) }
{
    out.extend_from_slice(b"removed rule ")?;
    push_decimal(out, number)?;
    out.extend_from_slice(b": ")?;
    push_rule(out, spec, number)?;
    out.push(b'\n')?;
    Ok(())
}

/// Appends a rule.
fn push_rule(out: &mut Vec<u8>, spec: &Spec, number: usize) -> Result<(), AllocError>
    requires some { 1 ≤ number }
    requires within { number < length spec.now.grammar.rules }
    ensures { OnOk result
        (out.new.items ≡ out.old.items ++ rule_text spec.now (slice_get spec.now.grammar.rules number)) }
{
    let rule = spec.grammar().rule(number);
    push_symbol(out, spec, Symbol::Nonterminal(rule.left()))?;
    out.extend_from_slice(b" :")?;
    push_behind_spaces(out, spec, rule.body())?;
    Ok(())
}

/// Appends the line of a conflict.
pub(crate) fn push_conflict(
    alloc: Global,
    out: &mut Vec<u8>,
    spec: &Spec,
    lr0: &Lr0<'_>,
    conflict: &Conflict,
) -> Result<(), OutOfMemory>
    requires { IsTellable spec.now lr0.now conflict.now }
    ensures { OnOk result
        (out.new.items ≡ out.old.items ++ conflict_line spec.now (conflict_from lr0.now conflict.now)) }
{
    let mut prefix = lr0.prefix(alloc, conflict.state)?;
    prefix.reverse();
    push_place(out, spec, conflict.kind, &prefix, conflict.terminal)?;
    push_choice(out, conflict.choice, conflict.rule)?;
    Ok(())
}

/// Appends the kind of a conflict and where it is: after these symbols, before a terminal.
fn push_place(
    out: &mut Vec<u8>,
    spec: &Spec,
    kind: ConflictKind,
    symbols: &[Symbol],
    terminal: Sym,
) -> Result<(), AllocError>
    requires symbols { All (λ x. IsNamed spec.now (symbol_of x)) symbols.now }
    requires terminal { terminal.0 < length spec.now.terminals }
    ensures { OnOk result (out.new.items
        ≡ out.old.items ++ place_text spec.now (kind_from kind) (map symbol_of symbols.now) terminal.0) }
{
    out.extend_from_slice(kind_name(kind))?;
    out.extend_from_slice(b" after [")?;
    push_spaced(out, spec, symbols)?;
    out.extend_from_slice(b"] before ")?;
    push_symbol(out, spec, Symbol::Terminal(terminal))?;
    Ok(())
}

/// The printed name of a kind of conflict.
fn kind_name(kind: ConflictKind) -> &'static [u8]
    ensures { result.now ≡ kind_name (kind_from kind) }
{
    match kind {
        ConflictKind::ShiftReduce => b"shift/reduce",
        ConflictKind::ReduceReduce => b"reduce/reduce",
    }
}

/// Appends the chosen action, and the rule that isn't chosen.
fn push_choice(out: &mut Vec<u8>, choice: Action, rule: RuleNo) -> Result<(), AllocError>
    ensures { OnOk result (out.new.items ≡ out.old.items ++ choice_text (action_from choice) rule.0) }
{
    out.extend_from_slice(b": ")?;
    push_action(out, choice)?;
    out.extend_from_slice(b", not rule ")?;
    push_decimal(out, rule.0 as usize)?;
    out.push(b'\n')?;
    Ok(())
}

/// Appends an action.
fn push_action(out: &mut Vec<u8>, action: Action) -> Result<(), AllocError>
    ensures { OnOk result (out.new.items ≡ out.old.items ++ action_text (action_from action)) }
{
    match action {
        Action::Shift => out.extend_from_slice(b"shift"),
        Action::Reduce(rule) => {
            out.extend_from_slice(b"rule ")?;
            push_decimal(out, rule.0 as usize)
        }
        Action::Error => out.extend_from_slice(b"error"),
    }
}

/// Appends a number.
pub(crate) fn push_decimal(out: &mut Vec<u8>, number: usize) -> Result<(), AllocError>
    ensures { OnOk result (out.new.items ≡ out.old.items ++ decimal number) }
{
    write!(out, "{number}").map_err(|_| AllocError)
}
