//! Finds the section of a table file that is out of its ranges.
ghost use Rattle.std.specs.Prelude.{◌≡◌, IfSome, None};
ghost use Rattle.ly_tables.specs.Private.RawValues.{raw_from};
ghost use Rattle.ly_tables.specs.Private.SectionOrder.{AreAllWithin, AreFileNumbers, AreWithinBefore, IsFirstNumber};
ghost use Rattle.ly_tables.specs.Private.SectionOrder.{section_from};
ghost use Rattle.ly_tables.specs.RawSections.{rule_section, section_number};

use crate::raw_tables::RawTables;
use crate::row_ranges::{actions_within, gotos_within, scan_rows_within};
use crate::rule_ranges::{defaults_within, rules_within};
use crate::scanner_ranges::{
    accepted_within, classes_within, conditions_within, scan_rules_within,
};
use crate::section::Section;
use crate::symbol_ranges::{literals_within, symbols_within};
use ly_base::Version;

/// The first section that is out of its ranges, if there is one.
pub(crate) fn section_out(version: Version, raw: &RawTables) -> Option<Section>
    requires { AreFileNumbers version (raw_from raw.now) }
    ensures none { result ≡ None → AreAllWithin version (raw_from raw.now) }
    ensures some { IfSome result (λ s. IsFirstNumber version (raw_from raw.now) (section_number (section_from s))) }
{
    match scanner_section_out(version, raw) {
        Some(section) => Some(section),
        None => parser_section_out(version, raw),
    }
}

/// The first section of the symbols and the scanner that is out of its ranges, if there is one.
fn scanner_section_out(version: Version, raw: &RawTables) -> Option<Section>
    requires { AreFileNumbers version (raw_from raw.now) }
    ensures none { result ≡ None → AreWithinBefore version (raw_from raw.now) (section_number rule_section) }
    ensures some { IfSome result (λ s. IsFirstNumber version (raw_from raw.now) (section_number (section_from s))) }
{
    if !symbols_within(version, raw) {
        return Some(Section::Symbols);
    }
    if !literals_within(raw) {
        return Some(Section::Literals);
    }
    if !scan_rules_within(version, raw) {
        return Some(Section::ScanRules);
    }
    if !conditions_within(version, raw) {
        return Some(Section::Conditions);
    }
    if !classes_within(raw) {
        return Some(Section::Classes);
    }
    if !accepted_within(version, raw) {
        return Some(Section::Accepted);
    }
    if !scan_rows_within(version, raw) {
        return Some(Section::ScanRows);
    }
    None
}

/// The first section of the parser that is out of its ranges, if there is one.
fn parser_section_out(version: Version, raw: &RawTables) -> Option<Section>
    requires fits { AreFileNumbers version (raw_from raw.now) }
    requires before { AreWithinBefore version (raw_from raw.now) (section_number rule_section) }
    ensures none { result ≡ None → AreAllWithin version (raw_from raw.now) }
    ensures some { IfSome result (λ s. IsFirstNumber version (raw_from raw.now) (section_number (section_from s))) }
{
    if !rules_within(version, raw) {
        return Some(Section::Rules);
    }
    if !defaults_within(version, raw) {
        return Some(Section::Defaults);
    }
    if !actions_within(version, raw) {
        return Some(Section::Actions);
    }
    if !gotos_within(version, raw) {
        return Some(Section::Gotos);
    }
    None
}
