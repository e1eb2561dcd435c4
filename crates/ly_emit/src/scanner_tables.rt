//! The tables of a scanner.
ghost use Rattle.std.specs.Prelude.{◌≡◌, ◌*◌, ◌+◌, ◌<◌, ◌^◌, ℕ, All, IfOk, OnOk, length, map};
ghost use Rattle.std.specs.Option.{option_map};
ghost use Rattle.ly_emit.specs.Private.Listing.{AreNextTo, AreStarts};
ghost use Rattle.ly_emit.specs.Private.Lists.{HasRows};
ghost use Rattle.ly_pack.specs.Combs.{IsFirstFit};
ghost use Rattle.ly_pack.specs.Rows.{comb_entry, dense_entry};
ghost use Rattle.ly_subset.specs.Automaton.{IsAutomaton};
ghost use Rattle.ly_tables.specs.Values.{scan_rule_from, starts_from};

use ly_base::{OutOfMemory, RuleNo, ScanAction, StateNo};
use ly_ere::Rule;
use ly_pack::{Comb, Dense, comb};
use ly_scan::Starts;
use ly_subset::Dfa;
use ly_tables::ScanRule;
use std::alloc::{AllocError, Global};

/// The tables of a scanner.
#[derive(Drop)]
pub(crate) struct ScannerTables {
    /// The actions and trailing contexts of its rules.
    pub(crate) rules: Vec<ScanRule>,
    /// The initial states of its conditions.
    pub(crate) conditions: Vec<Starts>,
    /// The class of each byte.
    pub(crate) classes: Vec<u8>,
    /// The rule of each state, if it has one.
    pub(crate) accepted: Vec<Option<RuleNo>>,
    /// The transitions of states, by classes.
    pub(crate) rows: Comb<StateNo>,
}

/// The tables of the scanner with these actions of rules and the trailing contexts of these patterns. Its states are
/// those of the automaton.
pub(crate) fn scanner_tables(
    alloc: Global,
    actions: &[ScanAction],
    rules: &[Rule],
    dfa: &Dfa,
) -> Result<ScannerTables, OutOfMemory>
    requires rules { length rules.now ≡ length actions.now }
    requires starts { (conditions : ℕ) × (dfa.now.starts ≡ 2 * conditions) }
    requires conditions { dfa.now.starts < 2 ^ 32 }
    requires states { length dfa.now.rules < 2 ^ 32 }
    ensures actions { IfOk result (λ t. map (λ r. r.action) (map scan_rule_from t.rules.items) ≡ actions.now) }
    ensures cuts { IfOk result (λ t. map (λ r. r.cut) (map scan_rule_from t.rules.items)
        ≡ map (λ r. r.pattern.cut) rules.now) }
    ensures count { IfOk result (λ t. 2 * length t.conditions.items ≡ dfa.now.starts) }
    ensures starts { IfOk result (λ t. AreStarts dfa.now (map starts_from t.conditions.items)) }
    ensures classes { IfOk result (λ t. t.classes.items ≡ dfa.now.class_of) }
    ensures bytes { IfOk result (λ t. All (λ class. class < 256) t.classes.items) }
    ensures accepted { IfOk result (λ t. map (option_map (λ p. p.0)) t.accepted.items ≡ dfa.now.rules) }
    ensures rows { IfOk result (λ t. AreNextTo dfa.now (length dfa.now.rules) (comb_entry t.rows)) }
    ensures placed { IfOk result (λ t. IsFirstFit t.rows) }
    ensures sizes { IfOk result (λ t. HasRows (length dfa.now.rules) dfa.now.classes t.rows) }
    ensures whole { OnOk result (IsAutomaton dfa.now) }
{
    let states = dfa.len() as u32;
    Ok(ScannerTables {
        rules: scan_rules(alloc, actions, rules)?,
        conditions: conditions(alloc, dfa)?,
        classes: classes(alloc, dfa)?,
        accepted: accepted(alloc, dfa, states)?,
        rows: comb(alloc, &dense_rows(alloc, dfa, states)?)?,
    })
}

/// The actions and trailing contexts of the rules.
fn scan_rules(
    alloc: Global,
    actions: &[ScanAction],
    rules: &[Rule],
) -> Result<Vec<ScanRule>, AllocError>
    requires { length rules.now ≡ length actions.now }
    ensures actions { IfOk result (λ r. map (λ r. r.action) (map scan_rule_from r.items) ≡ actions.now) }
    ensures cuts { IfOk result (λ r. map (λ r. r.cut) (map scan_rule_from r.items)
        ≡ map (λ r. r.pattern.cut) rules.now) }
{
    let mut scan_rules = Vec::with_capacity(alloc, rules.len())?;
    for number in 0..rules.len() {
        scan_rules.push(ScanRule {
            action: actions[number],
            cut: rules[number].pattern.cut,
        })?;
    }
    Ok(scan_rules)
}

/// The initial states of the conditions.
fn conditions(alloc: Global, dfa: &Dfa) -> Result<Vec<Starts>, AllocError>
    requires starts { (conditions : ℕ) × (dfa.now.starts ≡ 2 * conditions) }
    requires few { dfa.now.starts < 2 ^ 32 }
    ensures count { IfOk result (λ c. 2 * length c.items ≡ dfa.now.starts) }
    ensures starts { IfOk result (λ c. AreStarts dfa.now (map starts_from c.items)) }
{
    let count = (dfa.starts() / 2) as u32;
    let mut conditions = Vec::with_capacity(alloc, count as usize)?;
    for condition in 0..count {
        conditions.push(Starts {
            elsewhere: dfa.start(condition, false).map(StateNo),
            at_line: dfa.start(condition, true).map(StateNo),
        })?;
    }
    Ok(conditions)
}

/// The class of each byte.
fn classes(alloc: Global, dfa: &Dfa) -> Result<Vec<u8>, AllocError>
    requires { IsAutomaton dfa.now }
    ensures these { IfOk result (λ classes. classes.items ≡ dfa.now.class_of) }
    ensures bytes { IfOk result (λ classes. All (λ class. class < 256) classes.items) }
{
    let mut classes = Vec::with_capacity(alloc, 256)?;
    for byte in 0..256usize {
        classes.push(dfa.class(byte as u8))?;
    }
    Ok(classes)
}

/// The rule of each state, if it has one.
fn accepted(alloc: Global, dfa: &Dfa, states: u32) -> Result<Vec<Option<RuleNo>>, AllocError>
    requires { states ≡ length dfa.now.rules }
    ensures { IfOk result (λ rules. map (option_map (λ p. p.0)) rules.items ≡ dfa.now.rules) }
{
    let mut rules = Vec::with_capacity(alloc, states as usize)?;
    for state in 0..states {
        rules.push(dfa.rule(state))?;
    }
    Ok(rules)
}

/// The transitions of states by classes, as lists.
fn dense_rows(alloc: Global, dfa: &Dfa, states: u32) -> Result<Dense<StateNo>, OutOfMemory>
    requires { states ≡ length dfa.now.rules }
    ensures rows { IfOk result (λ rows. rows.rows ≡ length dfa.now.rules) }
    ensures width { IfOk result (λ rows. rows.width ≡ dfa.now.classes) }
    ensures filled { IfOk result (λ rows. AreNextTo dfa.now (length dfa.now.rules) (dense_entry rows)) }
{
    let mut rows = Dense::new(alloc, states as usize, dfa.classes())?;
    for state in 0..states {
        fill_row(dfa, state, &mut rows)?;
    }
    Ok(rows)
}

/// Fills in the transitions of a state.
fn fill_row(dfa: &Dfa, state: u32, rows: &mut Dense<StateNo>) -> Result<(), OutOfMemory>
    requires state { state < length dfa.now.rules }
    requires rows { rows.old.rows ≡ length dfa.now.rules }
    requires width { rows.old.width ≡ dfa.now.classes }
    requires before { AreNextTo dfa.now state (dense_entry rows.old) }
    ensures rows { rows.new.rows ≡ rows.old.rows }
    ensures width { rows.new.width ≡ rows.old.width }
    ensures filled { OnOk result (AreNextTo dfa.now (state + 1) (dense_entry rows.new)) }
{
    for class in 0..dfa.classes() {
        rows.set(StateNo(state), class, dfa.next(state, class).map(StateNo))?;
    }
    Ok(())
}
