//! The ranges of the sections of the scanner, except for its rows.
ghost use Rattle.std.specs.Prelude.{◌≡◌, ◌≢◌, ◌⊎◌, ◌<◌, ◌≤◌, ◌↔◌, All, IsTrue, length};
ghost use Rattle.ly_tables.specs.Private.RawValues.{raw_from, scan_rule_raw};
ghost use Rattle.ly_tables.specs.Ranges.{counts_of, width_of};
ghost use Rattle.ly_tables.specs.RawSections.{AreAcceptedWithin, AreClassesWithin, AreConditionsWithin};
ghost use Rattle.ly_tables.specs.RawSections.{AreScanRulesWithin, IsNoneOr, IsScanRuleWithin};

use crate::bounds::{
    MOST_CLASSES, MOST_CONDITIONS, are_at_most, is_count_within, most_rules, most_states,
};
use crate::numbers::none;
use crate::raw_tables::{RawScanRule, RawStarts, RawTables};
use crate::symbol_ranges::is_token;
use ly_base::Version;

/// Whether the scanner's rules are within their ranges.
pub(crate) fn scan_rules_within(version: Version, raw: &RawTables) -> bool
    ensures { IsTrue result ↔ AreScanRulesWithin (width_of version) (counts_of version) (raw_from raw.now) }
{
    raw.scan_rules.len() <= most_rules(version)
        && are_scan_rules_within(version, &raw.scan_rules, raw)
}

/// Whether each rule of the scanner is within its ranges.
fn are_scan_rules_within(version: Version, rules: &[RawScanRule], raw: &RawTables) -> bool
    ensures { IsTrue result ↔ All (λ rule. IsScanRuleWithin (width_of version) (raw_from raw.now)
        (scan_rule_raw rule)) rules.now }
{
    rules
        .iter()
        .all(|rule| is_scan_rule_within(version, *rule, raw))
}

/// Whether a rule of the scanner is within its ranges.
fn is_scan_rule_within(version: Version, rule: RawScanRule, raw: &RawTables) -> bool
    ensures { IsTrue result ↔ IsScanRuleWithin (width_of version) (raw_from raw.now) (scan_rule_raw rule) }
{
    is_emission_within(rule.kind, rule.terminal, raw.terminals.len())
        && is_none_or(version, rule.begin, raw.conditions.len())
        && is_cut_within(rule.cut, rule.len)
}

/// Whether what a rule of the scanner returns is within its ranges.
fn is_emission_within(kind: u8, terminal: u32, terminals: usize) -> bool
    ensures { IsTrue result ↔ (kind ≤ 2) × (kind ≡ 1 → (1 ≤ terminal) × (terminal < terminals))
        × (kind ≢ 1 → terminal ≡ 0) }
{
    if kind == 1 {
        is_token(terminal, terminals)
    } else {
        kind <= 2 && terminal == 0
    }
}

/// Whether a trailing context is within its ranges.
fn is_cut_within(cut: u8, len: u32) -> bool
    ensures { IsTrue result ↔ (cut ≤ 2) × (cut ≡ 0 → len ≡ 0) × (cut ≡ 1 → 1 ≤ len) }
{
    if cut == 0 {
        len == 0
    } else if cut == 1 {
        1 <= len
    } else {
        cut == 2
    }
}

/// Whether a number is below a bound, or represents none.
fn is_none_or(version: Version, number: u32, bound: usize) -> bool
    ensures { IsTrue result ↔ IsNoneOr (width_of version) bound number }
{
    number == none(version) || (number as usize) < bound
}

/// Whether the conditions are within their ranges.
pub(crate) fn conditions_within(version: Version, raw: &RawTables) -> bool
    ensures { IsTrue result ↔ AreConditionsWithin (width_of version) (counts_of version) (raw_from raw.now) }
{
    is_count_within(raw.conditions.len(), MOST_CONDITIONS)
        && are_starts_within(version, &raw.conditions, raw.accepted.len())
}

/// Whether the initial states of each condition exist.
fn are_starts_within(version: Version, conditions: &[RawStarts], states: usize) -> bool
    ensures { IsTrue result ↔ All (λ c. IsNoneOr (width_of version) states c.elsewhere
        × IsNoneOr (width_of version) states c.at_line) conditions.now }
{
    conditions.iter().all(|starts| is_none_or(version, starts.elsewhere, states)
        && is_none_or(version, starts.at_line, states))
}

/// Whether the classes are within their ranges.
pub(crate) fn classes_within(raw: &RawTables) -> bool
    ensures { IsTrue result ↔ AreClassesWithin (raw_from raw.now) }
{
    let count = raw.class_count;
    is_count_within(count as usize, MOST_CLASSES) && are_classes_below(&raw.classes, count)
}

/// Whether each class is less than their number.
fn are_classes_below(classes: &[u8], count: u32) -> bool
    ensures { IsTrue result ↔ All (λ class. class < count) classes.now }
{
    classes.iter().all(|class| (*class as u32) < count)
}

/// Whether the scanner's states are within their ranges.
pub(crate) fn accepted_within(version: Version, raw: &RawTables) -> bool
    ensures { IsTrue result ↔ AreAcceptedWithin (counts_of version) (raw_from raw.now) }
{
    raw.accepted.len() <= most_states(version) && are_at_most(&raw.accepted, raw.scan_rules.len())
}
