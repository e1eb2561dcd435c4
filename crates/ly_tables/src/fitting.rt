//! Checks that a table set is within the ranges of a version.
ghost use Rattle.std.specs.Prelude.{◌↔◌, All, IsTrue};
ghost use Rattle.ly_base.specs.declared.version.Version.TheVariants.{V2};
ghost use Rattle.ly_tables.specs.Private.Fitting.{AreCountsWithin};
ghost use Rattle.ly_tables.specs.Private.Short.{CutFits};
ghost use Rattle.ly_tables.specs.Ranges.{counts_of, width_of, IsWithinVersion};

use crate::bounds::{most_rules, most_states, most_symbols};
use crate::numbers::none;
use crate::scan_rule::ScanRule;
use crate::table_set::TableSet;
use ly_base::{Cut, Version};

/// Whether a set is within the ranges of a version. What its type guarantees is the same in each, except for the
/// greatest counts and the lengths of trailing contexts.
pub(crate) fn is_within(set: &TableSet, version: Version) -> bool
    ensures within { IsTrue result ↔ IsWithinVersion version set.now }
    ensures kept { IsWithinVersion V2 set.now }
{
    are_counts_within(set, version) && are_cuts_within(&set.parts.scan_rules, version)
}

/// Whether the numbers of symbols, rules and states of a set are within a version.
fn are_counts_within(set: &TableSet, version: Version) -> bool
    ensures { IsTrue result ↔ AreCountsWithin (counts_of version) set.now }
{
    set.parts.terminals.len() + set.parts.nonterminals < most_symbols(version)
        && set.parts.scan_rules.len() <= most_rules(version)
        && set.parts.accepted.len() <= most_states(version)
        && set.parts.rules.len() <= most_rules(version)
        && set.parts.defaults.len() <= most_states(version)
}

/// Whether the length of each trailing context fits in a version.
fn are_cuts_within(rules: &[ScanRule], version: Version) -> bool
    ensures { IsTrue result ↔ All (λ rule. CutFits (width_of version) rule.cut) rules.now }
{
    rules.iter().all(|rule| is_cut_within(rule.cut, version))
}

/// Whether the length of a trailing context fits in a version.
fn is_cut_within(cut: Cut, version: Version) -> bool
    ensures { IsTrue result ↔ CutFits (width_of version) cut }
{
    match cut {
        Cut::Whole => true,
        Cut::Head(len) | Cut::Tail(len) => len <= none(version) as usize,
    }
}
