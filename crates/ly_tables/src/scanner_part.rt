//! The sections of the scanner.
ghost use Rattle.std.specs.Prelude.{◌≡◌, ◌++◌, ◌<◌, All, OnOk, length, map};
ghost use Rattle.std.specs.List.{flat_map};
ghost use Rattle.std.specs.Option.{option_map};
ghost use Rattle.ly_tables.specs.Private.Short.{AreStartsShort, IsCountable, IsScanRuleShort, bound_of};
ghost use Rattle.ly_tables.specs.Ranges.{width_of, IsCutWithin, IsEmittedWithin, IsWithinVersion};
ghost use Rattle.ly_tables.specs.RawSet.{Fits};
ghost use Rattle.ly_tables.specs.Spelling.{counted_from_one, cut, emitted, number, scan_rule, starts, scanner_sections};
ghost use Rattle.ly_tables.specs.Values.{scan_rule_from, starts_from};

use crate::combs::push_comb;
use crate::numbers::{push_count, push_number, push_or_none};
use crate::scan_rule::ScanRule;
use crate::table_set::TableSet;
use ly_base::{Cut, Emitted, RuleNo, Version};
use ly_scan::Starts;
use std::alloc::AllocError;

/// The sections of the scanner: its rules, its conditions, the classes of bytes, its states and its rows.
pub(crate) fn push_scanner(
    out: &mut Vec<u8>,
    version: Version,
    set: &TableSet,
) -> Result<(), AllocError>
    requires { IsWithinVersion version set.now }
    ensures { OnOk result (out.new.items ≡ out.old.items ++ scanner_sections (width_of version) set.now) }
{
    push_scan_rules(out, version, &set.parts.scan_rules)?;
    push_conditions(out, version, &set.parts.conditions)?;
    push_count(out, version, set.parts.class_count)?;
    out.extend_from_slice(&set.parts.classes)?;
    push_accepted(out, version, &set.parts.accepted)?;
    push_comb(out, version, &set.parts.scan_rows)
}

/// The number of scanner rules, and the rules.
fn push_scan_rules(
    out: &mut Vec<u8>,
    version: Version,
    rules: &[ScanRule],
) -> Result<(), AllocError>
    requires count { Fits (width_of version) (length rules.now) }
    requires short { All (IsScanRuleShort (width_of version)) (map scan_rule_from rules.now) }
    ensures { OnOk result (out.new.items ≡ out.old.items
        ++ (number (width_of version) (length rules.now)
        ++ flat_map (scan_rule (width_of version)) (map scan_rule_from rules.now))) }
{
    push_count(out, version, rules.len())?;
    for rule in rules {
        push_scan_rule(out, version, *rule)?;
    }
    Ok(())
}

/// A rule of the scanner.
fn push_scan_rule(out: &mut Vec<u8>, version: Version, rule: ScanRule) -> Result<(), AllocError>
    requires { IsScanRuleShort (width_of version) (scan_rule_from rule) }
    ensures { OnOk result (out.new.items ≡ out.old.items ++ scan_rule (width_of version) (scan_rule_from rule)) }
{
    push_emitted(out, version, rule.action.emits)?;
    push_or_none(out, version, rule.action.begin)?;
    push_cut(out, version, rule.cut)
}

/// What a rule returns: its kind, and its terminal or 0.
fn push_emitted(out: &mut Vec<u8>, version: Version, emits: Emitted) -> Result<(), AllocError>
    requires { IsEmittedWithin (bound_of (width_of version)) emits }
    ensures { OnOk result (out.new.items ≡ out.old.items ++ emitted (width_of version) emits) }
{
    let (kind, terminal) = match emits {
        Emitted::Nothing => (0, 0),
        Emitted::Terminal(terminal) => (1, terminal.0),
        Emitted::FirstByte => (2, 0),
    };
    out.push(kind)?;
    push_number(out, version, terminal)
}

/// A trailing context: its kind, and its length or 0.
fn push_cut(out: &mut Vec<u8>, version: Version, scan_cut: Cut) -> Result<(), AllocError>
    requires { IsCutWithin (width_of version) scan_cut }
    ensures { OnOk result (out.new.items ≡ out.old.items ++ cut (width_of version) scan_cut) }
{
    let (kind, len) = match scan_cut {
        Cut::Whole => (0, 0),
        Cut::Head(len) => (1, len),
        Cut::Tail(len) => (2, len),
    };
    out.push(kind)?;
    push_count(out, version, len)
}

/// The number of conditions, and their initial states.
fn push_conditions(
    out: &mut Vec<u8>,
    version: Version,
    conditions: &[Starts],
) -> Result<(), AllocError>
    requires count { Fits (width_of version) (length conditions.now) }
    requires short { All (AreStartsShort (width_of version)) (map starts_from conditions.now) }
    ensures { OnOk result (out.new.items ≡ out.old.items
        ++ (number (width_of version) (length conditions.now)
        ++ flat_map (starts (width_of version)) (map starts_from conditions.now))) }
{
    push_count(out, version, conditions.len())?;
    for condition in conditions {
        push_starts(out, version, *condition)?;
    }
    Ok(())
}

/// The initial states of a condition.
fn push_starts(out: &mut Vec<u8>, version: Version, condition: Starts) -> Result<(), AllocError>
    requires { AreStartsShort (width_of version) (starts_from condition) }
    ensures { OnOk result (out.new.items ≡ out.old.items ++ starts (width_of version) (starts_from condition)) }
{
    push_or_none(out, version, condition.elsewhere.map(|state| state.0))?;
    push_or_none(out, version, condition.at_line.map(|state| state.0))
}

/// The number of scanner states, and the rule of each, counted from 1, with 0 for none.
fn push_accepted(
    out: &mut Vec<u8>,
    version: Version,
    accepted: &[Option<RuleNo>],
) -> Result<(), AllocError>
    requires count { Fits (width_of version) (length accepted.now) }
    requires short { All (IsCountable (width_of version)) (map (option_map (λ p. p.0)) accepted.now) }
    ensures { OnOk result (out.new.items ≡ out.old.items ++ (number (width_of version) (length accepted.now)
        ++ flat_map (counted_from_one (width_of version)) (map (option_map (λ p. p.0)) accepted.now))) }
{
    push_count(out, version, accepted.len())?;
    for rule in accepted {
        push_counted(out, version, *rule)?;
    }
    Ok(())
}

/// A rule counted from 1, or 0 for none.
fn push_counted(out: &mut Vec<u8>, version: Version, rule: Option<RuleNo>) -> Result<(), AllocError>
    requires { IsCountable (width_of version) (option_map (λ p. p.0) rule) }
    ensures { OnOk result (out.new.items ≡ out.old.items
        ++ counted_from_one (width_of version) (option_map (λ p. p.0) rule)) }
{
    match rule {
        Some(rule) => push_number(out, version, rule.0 + 1),
        None => push_number(out, version, 0),
    }
}
