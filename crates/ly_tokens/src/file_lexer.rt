//! The lexer of a lex file: the rows of the minimal DFA of its patterns, with an entry for each of the 256 bytes.
ghost use Rattle.std.specs.List.{range_with_len};
ghost use Rattle.std.specs.Prelude.{◌≡◌, ◌≤◌, ◌*◌, ℕ, List, length, map, IfErr, IfOk, OnOk};
ghost use Rattle.ly_ere.specs.Names.{defined};
ghost use Rattle.ly_lexread.specs.LexText.{LexText};
ghost use Rattle.ly_position.specs.TotalWeight.{total_weight};
ghost use Rattle.ly_scan.specs.Lexers.{scanner_of};
ghost use Rattle.ly_scan.specs.StateRows.{row_width};
ghost use Rattle.ly_scan.specs.StateTable.{table_from};
ghost use Rattle.ly_subset.specs.RuleSets.{HaveMoreSets};
ghost use Rattle.ly_tokens.specs.Agreement.{Agrees};
ghost use Rattle.ly_tokens.specs.RowWalk.{cut_in, row_walk};
ghost use Rattle.ly_tokens.specs.ScannerFault.{HasNoScanner};
ghost use Rattle.ly_tokens.specs.Private.Labels.{is_passed};
ghost use Rattle.ly_tokens.specs.Private.RowTable.{begin_of, AreRowsOf, AreRulesOf, IsTableOf};

use crate::scanner::smallest_automaton;
use crate::scanner_fault::ScannerFault;
use ly_base::{Cut, Limits, OutOfMemory, RuleNo, StateNo};
use ly_ere::Rule;
use ly_lexread::{LexAction, LexFile, Returned};
use ly_scan::{Lexer, Scanner, ScannerParts, Starts, StateRows};
use ly_subset::Dfa;
use std::alloc::Global;

/// Returns the lexer of a lex file, if its DFA is within the limits.
///
/// Its errors are those of `ScannerFault`.
pub(crate) fn lexer_of(
    alloc: Global,
    file: &LexFile,
    limits: &Limits,
) -> Result<Lexer, ScannerFault>
    requires spelled { (bytes : List ℕ) × LexText bytes file.now }
    ensures agrees { IfOk result
        (λ l. Agrees (defined file.now.names) file.now.rules.items (scanner_of l.scanner)) }
    ensures passed { IfOk result (λ l. l.passed ≡ map is_passed file.now.actions.items) }
    ensures within { OnOk result
        (total_weight (defined file.now.names) file.now.rules.items ≤ limits.now.total_weight) }
    ensures few { OnOk result (HaveMoreSets (defined file.now.names) file.now.rules.items file.now.conditions
        limits.now.scanner_states → ⊥) }
    ensures refused { IfErr result (HasNoScanner limits.now file.now) }
{
    let dfa = smallest_automaton(alloc, file, limits)?;
    let scanner = scanner_of(alloc, &dfa, &file.rules)?;
    let passed = passed_rules(alloc, &file.actions)?;
    Ok(Lexer::new(alloc, scanner, passed)?)
}

/// Returns the scanner over the rows of a DFA for these rules.
fn scanner_of(alloc: Global, dfa: &Dfa, rules: &[Rule]) -> Result<Scanner, OutOfMemory>
    ensures { IfOk result (λ t. scanner_of t ≡ record { walk = row_walk dfa.now; cut = cut_in rules.now }) }
{
    Ok(Scanner::new(parts_of(alloc, dfa, rules)?))
}

/// Returns the parts of the scanner.
fn parts_of(alloc: Global, dfa: &Dfa, rules: &[Rule]) -> Result<ScannerParts, OutOfMemory>
    ensures { IfOk result (λ p. IsTableOf dfa.now rules.now (table_from p)) }
{
    let states = count_of(dfa.len())?;
    // each condition has two starts, so the count is right for all of them
    let conditions = count_of(dfa.starts())?;
    Ok(ScannerParts {
        starts: starts_of(alloc, dfa, conditions)?,
        rules: rules_of(alloc, dfa, states)?,
        cuts: cuts_of(alloc, rules)?,
        rows: spread(alloc, dfa, states)?,
    })
}

/// Returns a count as a u32. A count that exceeds a u32 is reported as out of memory.
pub(crate) fn count_of(count: usize) -> Result<u32, OutOfMemory>
    ensures { IfOk result (λ n. n ≡ count) }
{
    match u32::try_from(count) {
        Ok(count) => Ok(count),
        Err(_) => Err(OutOfMemory),
    }
}

/// The start states of the first `count` conditions.
fn starts_of(alloc: Global, dfa: &Dfa, count: u32) -> Result<Vec<Starts>, OutOfMemory>
    ensures { IfOk result (λ starts. starts.items ≡ map (begin_of dfa.now) (range_with_len 0 count)) }
{
    Ok(
        (0..count)
            .map(|condition| start_of(dfa, condition))
            .collect(alloc)?,
    )
}

/// The start states of one condition.
fn start_of(dfa: &Dfa, condition: u32) -> Starts
    ensures { result ≡ begin_of dfa.now condition }
{
    Starts {
        elsewhere: dfa.start(condition, false).map(StateNo),
        at_line: dfa.start(condition, true).map(StateNo),
    }
}

/// The rule of each state of a DFA with this many states.
fn rules_of(alloc: Global, dfa: &Dfa, states: u32) -> Result<Vec<Option<RuleNo>>, OutOfMemory>
    requires { states ≡ length dfa.now.rules }
    ensures { IfOk result (λ rules. AreRulesOf dfa.now rules.items) }
{
    let mut rules = Vec::with_capacity(alloc, states as usize)?;
    for state in 0..states {
        rules.push(dfa.rule(state))?;
    }
    Ok(rules)
}

/// The trailing-context cut of each rule.
fn cuts_of(alloc: Global, rules: &[Rule]) -> Result<Vec<Cut>, OutOfMemory>
    ensures { IfOk result (λ cuts. cuts.items ≡ map (λ r. r.pattern.cut) rules.now) }
{
    Ok(rules.iter().map(|rule| rule.pattern.cut).collect(alloc)?)
}

/// The rows of a DFA with this many states, with an entry for each of the 256 bytes.
fn spread(alloc: Global, dfa: &Dfa, states: u32) -> Result<StateRows, OutOfMemory>
    requires { states ≡ length dfa.now.rules }
    ensures counted { IfOk result (λ rows. length rows ≡ length dfa.now.rules * row_width) }
    ensures spread { IfOk result (AreRowsOf dfa.now) }
{
    let mut rows = StateRows::new(alloc, states as usize)?;
    for state in 0..states {
        for byte in 0..256usize {
            rows.set(state, byte, dfa.step(state, byte as u8));
        }
    }
    Ok(rows)
}

/// For each rule whether its lexemes are skipped: its action returns nothing and sets no condition.
fn passed_rules(alloc: Global, actions: &[LexAction]) -> Result<Vec<bool>, OutOfMemory>
    ensures { IfOk result (λ passed. passed.items ≡ map is_passed actions.now) }
{
    Ok(actions.iter().map(is_passed).collect(alloc)?)
}

/// Whether an action returns nothing and sets no condition.
fn is_passed(action: &LexAction) -> bool
    ensures { result ≡ is_passed action.now }
{
    action.begin.is_none() && matches!(action.returns, Returned::Nothing)
}
