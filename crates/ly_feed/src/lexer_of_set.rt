//! The lexer of a table set.
ghost use Rattle.std.specs.Prelude.{◌≡◌, ◌<◌, ◌*◌, ℕ, length, map, slice_get, slice_index, slice_index_or};
ghost use Rattle.std.specs.Prelude.{IfOk, IfSome};
ghost use Rattle.std.specs.Prelude.{None, Some};
ghost use Rattle.ly_base.specs.declared.numbers.StateNo as number;
ghost use Rattle.ly_base.specs.declared.version.Version.TheVariants.{V2};
ghost use Rattle.ly_feed.specs.ScanPart.{scan_part_of, scanner_in, states_from};
ghost use Rattle.ly_feed.specs.LexerOf.{IsLexerOf};
ghost use Rattle.ly_feed.specs.Private.ScannerOf.{is_passed, IsScannerOf};
ghost use Rattle.ly_pack.specs.Rows.{comb_entry, Used};
ghost use Rattle.ly_scan.specs.Lexers.{scanner_of};
ghost use Rattle.ly_scan.specs.StateRows.{row_entry, row_width};
ghost use Rattle.ly_scan.specs.StateTable.{table_from};
ghost use Rattle.ly_tables.specs.Ranges.{IsWithinVersion};

use ly_base::{Cut, Emitted, OutOfMemory, RuleNo, StateNo};
use ly_pack::{Comb, Rows};
use ly_scan::{Lexer, Scanner, ScannerParts, Starts, StateRows};
use ly_tables::{ScanRule, TableSet};
use std::alloc::Global;

/// The lexer of a table set. It fails if an allocation fails.
pub fn lexer_of(alloc: Global, set: &TableSet) -> Result<Lexer, OutOfMemory>
    ensures { IfOk result (IsLexerOf (scan_part_of set.now)) }
{
    let scanner = scanner_of(alloc, set)?;
    let passed = passed_rules(alloc, set.scan_rules())?;
    Lexer::new(alloc, scanner, passed)
}

/// The scanner of a table set, with a column for each byte.
fn scanner_of(alloc: Global, set: &TableSet) -> Result<Scanner, OutOfMemory>
    ensures { IfOk result (λ t. scanner_of t ≡ scanner_in (scan_part_of set.now)) }
{
    // it implies that the numbers are within their ranges
    let _machine = set.machine();
    Ok(Scanner::new(parts_of(alloc, set)?))
}

/// The parts of a table set's scanner.
fn parts_of(alloc: Global, set: &TableSet) -> Result<ScannerParts, OutOfMemory>
    requires { IsWithinVersion V2 set.now }
    ensures { IfOk result (λ p. IsScannerOf set.now (table_from p)) }
{
    let accepted = set.accepted();
    Ok(ScannerParts {
        starts: starts_of(alloc, set.conditions())?,
        rules: rules_of(alloc, accepted)?,
        cuts: cuts_of(alloc, set.scan_rules())?,
        rows: spread(alloc, set.scan_rows(), set.classes(), accepted.len())?,
    })
}

/// The rule of each state, if it has one.
fn rules_of(alloc: Global, accepted: &[Option<RuleNo>]) -> Result<Vec<Option<RuleNo>>, OutOfMemory>
    ensures { IfOk result (λ rules. rules.items ≡ accepted.now) }
{
    Ok(accepted.iter().copied().collect(alloc)?)
}

/// The initial states of conditions.
fn starts_of(alloc: Global, conditions: &[Starts]) -> Result<Vec<Starts>, OutOfMemory>
    ensures { IfOk result (λ starts. starts.items ≡ conditions.now) }
{
    Ok(conditions.iter().copied().collect(alloc)?)
}

/// The trailing contexts of rules.
fn cuts_of(alloc: Global, rules: &[ScanRule]) -> Result<Vec<Cut>, OutOfMemory>
    ensures { IfOk result (λ cuts. cuts.items ≡ map (λ r. r.cut) rules.now) }
{
    Ok(rules.iter().map(|rule| rule.cut).collect(alloc)?)
}

/// For each rule, whether its lexemes have no effect.
fn passed_rules(alloc: Global, rules: &[ScanRule]) -> Result<Vec<bool>, OutOfMemory>
    ensures { IfOk result (λ passed. passed.items ≡ map is_passed rules.now) }
{
    Ok(rules.iter().map(is_passed).collect(alloc)?)
}

/// Whether the lexemes of a rule have no effect.
fn is_passed(rule: &ScanRule) -> bool
    ensures { result ≡ is_passed rule.now }
{
    rule.action.begin.is_none() && matches!(rule.action.emits, Emitted::Nothing)
}

/// The rows of states by bytes, from a comb of rows by classes. The class of each byte is looked up here, so that no
/// step of the scanner needs to.
fn spread(
    alloc: Global,
    comb: &Comb<StateNo>,
    classes: &[u8],
    states: usize,
) -> Result<StateRows, OutOfMemory>
    requires classes { length classes.now ≡ 256 }
    requires states { states < 4294967296 }
    requires targets { (k : ℕ) (u : Used number.StateNo) → slice_get comb.now.slots k ≡ Some (Some u)
        → u.entry.0 < states }
    ensures count { IfOk result (λ r. length r ≡ states * row_width) }
    ensures same { IfOk result (λ r. (state byte : ℕ) → state < states → byte < 256
        → row_entry r state byte ≡ states_from (comb_entry comb.now) state (slice_index classes.now byte)) }
    ensures within { IfOk result (λ r. (state byte : ℕ) → state < states → byte < 256
        → IfSome (row_entry r state byte) (λ next. next < states)) }
{
    let mut rows = StateRows::new(alloc, states)?;
    for state in 0..states {
        let state = StateNo(state as u32);
        let targets = targets_of(comb, state);
        for byte in 0..256usize {
            rows.set(state.0, byte, targets[usize::from(classes[byte])]);
        }
    }
    Ok(rows)
}

/// The target of each class from a state. A look-up in a comb takes far longer than reading these, and there are mostly
/// fewer classes than bytes.
fn targets_of(comb: &Comb<StateNo>, state: StateNo) -> [Option<u32>; 256]
    ensures { (class : ℕ) → class < 256
        → slice_index_or result class None ≡ states_from (comb_entry comb.now) state.0 class }
{
    let mut targets = [None; 256];
    // no class past the comb's width has a target
    for class in 0..comb.width().min(256) {
        targets[class] = comb.entry(state, class).map(|next| next.0);
    }
    targets
}
