//! Converts the numbers of the scanner's sections.
ghost use Rattle.std.specs.Prelude.{◌≡◌, IfOk, map};
ghost use Rattle.std.specs.Option.{option_map};
ghost use Rattle.ly_tables.specs.Private.Meaning.{counted_meant, cut_meant, default_meant, emitted_meant};
ghost use Rattle.ly_tables.specs.Private.Meaning.{number_meant, scan_rule_meant, starts_meant};
ghost use Rattle.ly_tables.specs.Private.RawValues.{scan_rule_raw, starts_raw};
ghost use Rattle.ly_tables.specs.Ranges.{width_of};
ghost use Rattle.ly_tables.specs.Values.{scan_rule_from, starts_from};

use crate::numbers::none;
use crate::raw_tables::{RawScanRule, RawStarts};
use crate::scan_rule::ScanRule;
use ly_base::{Cut, Emitted, RuleNo, ScanAction, StateNo, Sym, Version};
use ly_scan::Starts;
use std::alloc::{AllocError, Global};

/// The terminals with these numbers.
pub(crate) fn literals(alloc: Global, numbers: &[u32]) -> Result<Vec<Sym>, AllocError>
    ensures { IfOk result (λ out. map (λ t. t.0) out.items ≡ numbers.now) }
{
    let mut out = Vec::with_capacity(alloc, numbers.len())?;
    for number in numbers {
        out.push(Sym(*number))?;
    }
    Ok(out)
}

/// The rules of the scanner.
pub(crate) fn scan_rules(
    alloc: Global,
    version: Version,
    rules: &[RawScanRule],
) -> Result<Vec<ScanRule>, AllocError>
    ensures { IfOk result (λ out. map scan_rule_from out.items
        ≡ map (scan_rule_meant (width_of version)) (map scan_rule_raw rules.now)) }
{
    let mut out = Vec::with_capacity(alloc, rules.len())?;
    for rule in rules {
        out.push(scan_rule(version, *rule))?;
    }
    Ok(out)
}

/// A rule of the scanner.
fn scan_rule(version: Version, rule: RawScanRule) -> ScanRule
    ensures { scan_rule_from result ≡ scan_rule_meant (width_of version) (scan_rule_raw rule) }
{
    ScanRule {
        action: ScanAction {
            begin: number_or_none(version, rule.begin),
            emits: emitted(rule.kind, rule.terminal),
        },
        cut: cut(rule.cut, rule.len),
    }
}

/// What a rule of the scanner returns.
fn emitted(kind: u8, terminal: u32) -> Emitted
    ensures { result ≡ emitted_meant kind terminal }
{
    match kind {
        0 => Emitted::Nothing,
        1 => Emitted::Terminal(Sym(terminal)),
        _ => Emitted::FirstByte,
    }
}

/// A trailing context.
fn cut(kind: u8, len: u32) -> Cut
    ensures { result ≡ cut_meant kind len }
{
    match kind {
        0 => Cut::Whole,
        1 => Cut::Head(len as usize),
        _ => Cut::Tail(len as usize),
    }
}

/// A number, or none.
fn number_or_none(version: Version, number: u32) -> Option<u32>
    ensures { result ≡ number_meant (width_of version) number }
{
    if number == none(version) {
        None
    } else {
        Some(number)
    }
}

/// The initial states of the conditions.
pub(crate) fn conditions(
    alloc: Global,
    version: Version,
    conditions: &[RawStarts],
) -> Result<Vec<Starts>, AllocError>
    ensures { IfOk result (λ out. map starts_from out.items
        ≡ map (starts_meant (width_of version)) (map starts_raw conditions.now)) }
{
    let mut out = Vec::with_capacity(alloc, conditions.len())?;
    for condition in conditions {
        out.push(starts(version, *condition))?;
    }
    Ok(out)
}

/// The initial states of a condition.
fn starts(version: Version, condition: RawStarts) -> Starts
    ensures { starts_from result ≡ starts_meant (width_of version) (starts_raw condition) }
{
    Starts {
        elsewhere: number_or_none(version, condition.elsewhere).map(StateNo),
        at_line: number_or_none(version, condition.at_line).map(StateNo),
    }
}

/// The rules of scanner states.
pub(crate) fn accepted(alloc: Global, numbers: &[u32]) -> Result<Vec<Option<RuleNo>>, AllocError>
    ensures { IfOk result (λ out. map (option_map (λ p. p.0)) out.items ≡ map counted_meant numbers.now) }
{
    let mut out = Vec::with_capacity(alloc, numbers.len())?;
    for number in numbers {
        out.push(number.checked_sub(1).map(RuleNo))?;
    }
    Ok(out)
}

/// The default rules of parser states.
pub(crate) fn defaults(alloc: Global, numbers: &[u32]) -> Result<Vec<Option<RuleNo>>, AllocError>
    ensures { IfOk result (λ out. map (option_map (λ p. p.0)) out.items ≡ map default_meant numbers.now) }
{
    let mut out = Vec::with_capacity(alloc, numbers.len())?;
    for number in numbers {
        out.push(default_rule(*number))?;
    }
    Ok(out)
}

/// A default rule.
fn default_rule(number: u32) -> Option<RuleNo>
    ensures { option_map (λ p. p.0) result ≡ default_meant number }
{
    if number == 0 {
        None
    } else {
        Some(RuleNo(number))
    }
}
