//! The most frequent rule among the reductions of a state. The counts are cleared by visiting the state's rules again,
//! so the cost of a state is that of its entries.
ghost use Rattle.std.specs.Prelude.{◌≡◌, ◌≢◌, ◌<◌, ◌≤◌, ℕ, length, slice_index, All, Contains};
ghost use Rattle.std.specs.Prelude.{MatchOption, OnOk};
ghost use Rattle.ly_pack.specs.Private.Tally.{reductions, times, IsBestOf, IsBetter, IsChosen};
ghost use Rattle.ly_pack.specs.Rows.{dense_entry};

use crate::action::TableAction;
use crate::dense::Dense;
use ly_base::{RuleNo, StateNo};
use std::alloc::AllocError;

/// Lists the rules by which a state reduces, one for each entry.
pub(crate) fn list_rules(
    actions: &Dense<TableAction>,
    state: StateNo,
    rules: &mut Vec<u32>,
) -> Result<(), AllocError>
    requires { state.0 < actions.now.rows }
    ensures { OnOk result ((p : ℕ) → times p rules.new.items
        ≡ reductions (dense_entry actions.now) actions.now.width state.0 p) }
{
    rules.clear();
    for cell in actions.row(state) {
        if let TableAction::Reduce(rule) = cell.entry {
            rules.push(rule.0)?;
        }
    }
    Ok(())
}

/// The most frequent of the rules; the least if there are several. The counts are 0 before and after.
pub(crate) fn most_frequent(rules: &[u32], counts: &mut [usize]) -> Option<RuleNo>
    requires room { All (λ p. p < length counts.old) rules.now }
    requires clear { (p : ℕ) → slice_index counts.old p ≡ 0 }
    ensures most { IsChosen (λ p. times p rules.now) result }
    ensures clear { (p : ℕ) → slice_index counts.new p ≡ 0 }
{
    count(rules, counts);
    let best = best_of(rules, counts);
    clear(rules, counts);
    best
}

/// Counts the rules.
fn count(rules: &[u32], counts: &mut [usize])
    requires room { All (λ p. p < length counts.old) rules.now }
    requires clear { (p : ℕ) → slice_index counts.old p ≡ 0 }
    ensures { (p : ℕ) → slice_index counts.new p ≡ times p rules.now }
{
    for rule in rules {
        counts[*rule as usize] += 1;
    }
}

/// The rule with the greatest count; the least if there are several.
fn best_of(rules: &[u32], counts: &[usize]) -> Option<RuleNo>
    requires room { All (λ p. p < length counts.now) rules.now }
    requires counted { All (λ p. 1 ≤ slice_index counts.now p) rules.now }
    ensures { MatchOption result (length rules.now ≡ 0) (λ p. IsBestOf rules.now counts.now (length rules.now) p.0) }
{
    let mut best: Option<RuleNo> = None;
    for rule in rules {
        if is_better(counts, *rule, best) {
            best = Some(RuleNo(*rule));
        }
    }
    best
}

/// Whether a rule has a greater count than the best one, or the same count and a lower number.
fn is_better(counts: &[usize], rule: u32, best: Option<RuleNo>) -> bool
    requires rule { rule < length counts.now }
    requires best { MatchOption best (Unit {0}) (λ p. p.0 < length counts.now) }
    ensures { IsBetter counts.now rule best result }
{
    let Some(best) = best else {
        return true;
    };
    let (count, most) = (counts[rule as usize], counts[best.0 as usize]);
    most < count || (most == count && rule < best.0)
}

/// Resets the counts of the rules to 0.
fn clear(rules: &[u32], counts: &mut [usize])
    requires room { All (λ p. p < length counts.old) rules.now }
    requires counted { (p : ℕ) → slice_index counts.old p ≢ 0 → Contains rules.now p }
    ensures { (p : ℕ) → slice_index counts.new p ≡ 0 }
{
    for rule in rules {
        counts[*rule as usize] = 0;
    }
}
