//! The rules by which states reduce. Above an edge to a state without any, no run makes a reduction.
ghost use Rattle.std.specs.Prelude.{◌≡◌, ◌+◌, ◌<◌, IfOk, OnOk, length};
ghost use Rattle.ly_pack.specs.Machine.{IsRuleNumber, states_of};
ghost use Rattle.ly_loop.specs.Private.Entries.{AreAllEntries, AreEntries};
ghost use Rattle.ly_loop.specs.Private.Reductions.{AreAllReductions, AreFirsts, AreReducing, AreReductions, IsKeptOn};
ghost use Rattle.ly_loop.specs.Private.Reductions.{IsNoted};
ghost use Rattle.ly_loop.specs.Private.Run.{IsCountable};

use ly_base::{OutOfMemory, RuleNo, SparseSet, StateNo};
use ly_pack::{Cell, MachineView, Rows, TableAction};
use std::alloc::Global;
use std::collections::BTreeMap;
use std::rc::Rc;

/// The stored rules, by their left sides and lengths.
type Alike = BTreeMap<(u32, usize), RuleNo>;

/// The rules by which each state reduces before some terminal, by its entries or by its default. Rules by which a run
/// ends at once are left out, and so are those with the same effect as another.
pub(crate) fn all_reductions<A: Rows<TableAction> + Drop, G: Rows<StateNo> + Drop>(
    alloc: Global,
    machine: &MachineView<'_, A, G>,
    entries: &[Rc<Vec<Cell<TableAction>>>],
) -> Result<Vec<Vec<RuleNo>>, OutOfMemory>
    requires countable { IsCountable machine.now }
    requires entries { AreAllEntries machine.now entries.now }
    ensures { IfOk result (λ rows. AreAllReductions machine.now rows.items) }
{
    let mut seen = SparseSet::new(alloc, machine.rules().len() + 1)?;
    let mut rows = Vec::with_capacity(alloc, entries.len())?;
    for state in 0..machine.states() {
        let number = StateNo(state as u32);
        let row = reductions(alloc, machine, number, &entries[state], &mut seen)?;
        let kept = without_ends(alloc, machine, number, &row)?;
        rows.push(kept)?;
    }
    Ok(rows)
}

/// The rules by which a state with these entries reduces, each once. `seen` is a scratch buffer.
fn reductions<A: Rows<TableAction> + Drop, G: Rows<StateNo> + Drop>(
    alloc: Global,
    machine: &MachineView<'_, A, G>,
    state: StateNo,
    entries: &[Cell<TableAction>],
    seen: &mut SparseSet,
) -> Result<Vec<RuleNo>, OutOfMemory>
    requires countable { IsCountable machine.now }
    requires state { state.0 < states_of machine.now }
    requires entries { AreEntries machine.now state.0 entries.now }
    requires room { seen.old.below ≡ length machine.now.rules + 1 }
    ensures room { OnOk result (seen.new.below ≡ length machine.now.rules + 1) }
    ensures row { IfOk result (λ row. AreReducing machine.now state.0 row.items) }
{
    seen.clear();
    let mut row = Vec::new(alloc);
    if let Some(rule) = machine.default(state) {
        note(rule, seen, &mut row)?;
    }
    for cell in entries {
        if let TableAction::Reduce(rule) = cell.entry {
            note(rule, seen, &mut row)?;
        }
    }
    Ok(row)
}

/// Those of the rules of a state by which a run may continue, one for each effect.
fn without_ends<A: Rows<TableAction> + Drop, G: Rows<StateNo> + Drop>(
    alloc: Global,
    machine: &MachineView<'_, A, G>,
    state: StateNo,
    row: &[RuleNo],
) -> Result<Vec<RuleNo>, OutOfMemory>
    requires countable { IsCountable machine.now }
    requires state { state.0 < states_of machine.now }
    requires row { AreReducing machine.now state.0 row.now }
    ensures { IfOk result (λ kept. AreReductions machine.now state.0 kept.items) }
{
    let mut alike = BTreeMap::new(alloc);
    let mut kept = Vec::new(alloc);
    for rule in row {
        keep(machine, state, *rule, &mut alike, &mut kept)?;
    }
    Ok(kept)
}

/// Adds a rule of a state to a row if a run may continue by it: it has symbols, or the state has a goto for its left
/// side. A rule with the same left side and length as one in the row has the same effect.
fn keep<A: Rows<TableAction> + Drop, G: Rows<StateNo> + Drop>(
    machine: &MachineView<'_, A, G>,
    state: StateNo,
    rule: RuleNo,
    alike: &mut Alike,
    kept: &mut Vec<RuleNo>,
) -> Result<(), OutOfMemory>
    requires countable { IsCountable machine.now }
    requires state { state.0 < states_of machine.now }
    requires rule { IsRuleNumber machine.now rule.0 }
    requires alike { AreFirsts machine.now alike.old kept.old.items }
    ensures alike { OnOk result (AreFirsts machine.now alike.new kept.new.items) }
    ensures kept { OnOk result (IsKeptOn machine.now state.0 rule kept.old.items kept.new.items) }
{
    let made = machine.rule(rule);
    if made.body_length == 0 && machine.goto(state, made.left).is_none() {
        return Ok(());
    }
    let said = (made.left.0, made.body_length);
    if alike.get(&said).is_none() {
        alike.insert(said, rule)?;
        kept.push(rule)?;
    }
    Ok(())
}

/// Adds a rule to a row if it hasn't been seen.
fn note(rule: RuleNo, seen: &mut SparseSet, row: &mut Vec<RuleNo>) -> Result<(), OutOfMemory>
    requires { rule.0 < seen.old.below }
    ensures room { OnOk result (seen.new.below ≡ seen.old.below) }
    ensures noted { OnOk result
        (IsNoted rule seen.old.members row.old.items seen.new.members row.new.items) }
{
    if seen.insert(rule.0) {
        row.push(rule)?;
    }
    Ok(())
}
