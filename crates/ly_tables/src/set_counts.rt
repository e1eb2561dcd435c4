ghost use Rattle.std.specs.Prelude.{◌≡◌, length};

use crate::table_set::TableSet;

/// The sizes of a table set.
#[derive(Clone, Copy, Debug, PartialEq, Eq)]
pub struct SetCounts {
    /// The number of terminals, with `$end` and `$undef`.
    pub terminals: usize,
    /// The number of nonterminals, without `$accept`.
    pub nonterminals: usize,
    /// The number of rules of the scanner.
    pub scanner_rules: usize,
    /// The number of states of the scanner.
    pub scanner_states: usize,
    /// The number of rules of the parser, without rule 0.
    pub rules: usize,
    /// The number of states of the parser.
    pub parser_states: usize,
}

/// The sizes of a table set.
pub fn counts(set: &TableSet) -> SetCounts
    ensures terminals { result.terminals ≡ length set.now.terminals }
    ensures nonterminals { result.nonterminals ≡ set.now.nonterminals }
    ensures scanner_rules { result.scanner_rules ≡ length set.now.scan_rules }
    ensures scanner_states { result.scanner_states ≡ length set.now.accepted }
    ensures rules { result.rules ≡ length set.now.rules }
    ensures parser_states { result.parser_states ≡ length set.now.defaults }
{
    SetCounts {
        terminals: set.parts.terminals.len(),
        nonterminals: set.parts.nonterminals,
        scanner_rules: set.parts.scan_rules.len(),
        scanner_states: set.parts.accepted.len(),
        rules: set.parts.rules.len(),
        parser_states: set.parts.defaults.len(),
    }
}
