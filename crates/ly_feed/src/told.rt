//! The facts of states: what the final state of a scan determines about a lexeme, so that its rule needn't be looked
//! up.
ghost use Rattle.std.specs.Prelude.{◌≡◌, ◌≢◌, ◌<◌, ◌≤◌, List, ℕ, length, map, option_map, IfOk};
ghost use Rattle.ly_feed.specs.Private.Told.{number_for, terminal_told, AreFactsOf};
ghost use Rattle.ly_feed.specs.ScanPart.{scan_part_of, ScanPart};

use ly_base::{Emitted, OutOfMemory, Sym};
use ly_scan::Lexer;
use ly_tables::{ScanRule, TableSet};
use std::alloc::Global;

/// The number for rules that return no terminal.
const NO_TOKEN: u32 = 1;

/// The number for rules that return the literal of the first byte.
const FIRST_BYTE: u32 = 2;

/// The number for rules that return terminal 0; those of other terminals follow.
const TERMINALS: u32 = 3;

/// The facts of the states of a set's lexer. It fails if an allocation fails.
pub(crate) fn facts_of(
    alloc: Global,
    set: &TableSet,
    lexer: &Lexer,
) -> Result<Vec<u32>, OutOfMemory>
    ensures { IfOk result (λ f. AreFactsOf (scan_part_of set.now) lexer.now.scanner f.items) }
{
    let numbers = numbers_of(alloc, set.scan_rules())?;
    lexer.facts(alloc, &numbers)
}

/// For each rule, the number for its action.
fn numbers_of(alloc: Global, rules: &[ScanRule]) -> Result<Vec<u32>, OutOfMemory>
    ensures { IfOk result (λ numbers. numbers.items ≡ map number_for rules.now) }
{
    Ok(rules.iter().map(number_of).collect(alloc)?)
}

/// The number for the action of a rule. It is 0 if the facts give no action, as for a rule that sets a condition.
fn number_of(rule: &ScanRule) -> u32
    ensures { result ≡ number_for rule.now }
{
    if rule.action.begin.is_some() {
        return 0;
    }
    match rule.action.emits {
        Emitted::Nothing => NO_TOKEN,
        Emitted::FirstByte => FIRST_BYTE,
        Emitted::Terminal(terminal) if terminal.0 < 4_294_967_293 => terminal.0 + TERMINALS,
        Emitted::Terminal(_) => 0,
    }
}

/// The terminal of a lexeme from the number of its rule and its first byte, if it has one. `literals` has the terminal
/// of each byte.
#[inline(always)] // so that the loop over lexemes gets the registers
pub(crate) fn told_terminal(literals: &[Sym], number: u32, first: u8) -> Option<Sym>
    requires literals { length literals.now ≡ 256 }
    requires some { number ≢ 0 }
    ensures { (p : ScanPart) → map (λ t. t.0) literals.now ≡ p.literals
        → option_map (λ t. t.0) result ≡ terminal_told p number first }
{
    if number == NO_TOKEN {
        return None;
    }
    let by_byte = literals[usize::from(first)];
    Some(if number == FIRST_BYTE {
        by_byte
    } else {
        Sym(number - TERMINALS)
    })
}
