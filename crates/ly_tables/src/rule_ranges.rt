//! The ranges of the sections of the parser, except for its rows.
ghost use Rattle.std.specs.Prelude.{◌≡◌, ◌<◌, ◌≤◌, ◌↔◌, All, AllPairs, IsTrue, length};
ghost use Rattle.ly_tables.specs.Private.RawValues.{raw_from, rule_raw};
ghost use Rattle.ly_tables.specs.Ranges.{counts_of};
ghost use Rattle.ly_tables.specs.RawSections.{AreDefaultsWithin, AreRulesWithin, IsRuleWithin, IsShapeWithin};

use crate::bounds::{are_at_most, is_count_within, most_rules, most_states};
use crate::raw_tables::{RawRule, RawTables};
use crate::symbol_ranges::is_name_long;
use ly_base::Version;

/// Whether the parser's rules are within their ranges.
pub(crate) fn rules_within(version: Version, raw: &RawTables) -> bool
    ensures { IsTrue result ↔ AreRulesWithin (counts_of version) (raw_from raw.now) }
{
    is_count_within(raw.rules.len(), most_rules(version)) && are_rules_within(&raw.rules, raw)
}

/// Whether each rule of the parser is within its ranges.
fn are_rules_within(rules: &[RawRule], raw: &RawTables) -> bool
    ensures { IsTrue result ↔ All (λ rule. IsRuleWithin (raw_from raw.now) (rule_raw rule)) rules.now }
{
    rules.iter().all(|rule| is_rule_within(rule, raw))
}

/// Whether a rule of the parser is within its ranges.
fn is_rule_within(rule: &RawRule, raw: &RawTables) -> bool
    ensures { IsTrue result ↔ IsRuleWithin (raw_from raw.now) (rule_raw rule.now) }
{
    rule.left < raw.nonterminals
        && is_shape_within(rule)
        && are_places_within(&rule.places, rule.body_length)
        && are_apart(&rule.places)
}

/// Whether a rule has a length, a name and places that are allowed for its kind of tree.
fn is_shape_within(rule: &RawRule) -> bool
    ensures { IsTrue result ↔ IsShapeWithin (rule_raw rule.now) }
{
    match rule.kind {
        0 => rule.body_length == 0 && rule.name.is_empty() && rule.places.is_empty(),
        1 => rule.name.is_empty() && rule.places.len() == 1,
        2 => is_name_long(&rule.name),
        _ => false,
    }
}

/// Whether places are those of symbols of a body, counted from 1.
fn are_places_within(places: &[u8], body_length: u8) -> bool
    ensures { IsTrue result ↔ All (λ i. (1 ≤ i) × (i ≤ body_length)) places.now }
{
    places
        .iter()
        .all(|place| 1 <= *place && *place <= body_length)
}

/// Whether all places are different.
fn are_apart(places: &[u8]) -> bool
    ensures { IsTrue result ↔ AllPairs (λ i j. i ≡ j → ⊥) places.now }
{
    let mut seen = [false; 256];
    for place in places {
        if seen[*place as usize] {
            return false;
        }
        seen[*place as usize] = true;
    }
    true
}

/// Whether the default rules of the parser's states are within their ranges.
pub(crate) fn defaults_within(version: Version, raw: &RawTables) -> bool
    ensures { IsTrue result ↔ AreDefaultsWithin (counts_of version) (raw_from raw.now) }
{
    is_count_within(raw.defaults.len(), most_states(version))
        && are_at_most(&raw.defaults, raw.rules.len())
}
