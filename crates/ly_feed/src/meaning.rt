//! The meaning of a scanner's lexemes to the parser of the table set.
ghost use Rattle.std.specs.Prelude.{◌≡◌, ◌<◌, ℕ, List, length, option_map};
ghost use Rattle.ly_feed.specs.ScanPart.{condition_in, scan_part_of, terminal_by, terminal_in};

use ly_base::{Emitted, RuleNo, ScanAction, Sym};
use ly_tables::TableSet;

/// The action of a rule; without effect if there is no such rule.
pub fn action(set: &TableSet, rule: RuleNo) -> ScanAction
    ensures begin { result.begin ≡ condition_in (scan_part_of set.now) rule.0 }
    ensures emits { (bytes : List ℕ) → terminal_by (scan_part_of set.now) bytes result.emits
        ≡ terminal_in (scan_part_of set.now) rule.0 bytes }
{
    match set.scan_rules().get(rule.0 as usize) {
        Some(rule) => rule.action,
        None => ScanAction {
            begin: None,
            emits: Emitted::Nothing,
        },
    }
}

/// The terminal of a token with these bytes, if there is a token.
pub fn terminal(set: &TableSet, emits: Emitted, bytes: &[u8]) -> Option<Sym>
    requires { 0 < length bytes.now }
    ensures { option_map (λ t. t.0) result ≡ terminal_by (scan_part_of set.now) bytes.now emits }
{
    match emits {
        Emitted::Nothing => None,
        Emitted::Terminal(terminal) => Some(terminal),
        Emitted::FirstByte => Some(set.literals()[usize::from(bytes[0])]),
    }
}
