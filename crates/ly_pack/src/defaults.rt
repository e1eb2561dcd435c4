//! Default reductions. Each state that reduces does so by its most frequent rule if no entry says otherwise, and the
//! entries that are equal to this reduction are removed (Aho, Sethi and Ullman 1986, 4.7).
ghost use Rattle.std.specs.Prelude.{◌≡◌, ◌≢◌, ◌<◌, ◌≤◌, ℕ, length, slice_get, IfOk, OnOk, Some};
ghost use Rattle.ly_pack.specs.Defaults.{HasDefaultsOf};
ghost use Rattle.ly_pack.specs.Private.Tally.{out_by, reductions, HaveDefaults};
ghost use Rattle.ly_pack.specs.Rows.{dense_entry};

use crate::action::TableAction;
use crate::dense::{Dense, leave_out};
use crate::machine::Machine;
use crate::tally::{list_rules, most_frequent};
use ly_base::{OutOfMemory, RuleNo, StateNo};
use std::alloc::Global;

/// The machine with its default reductions, and without the entries that are equal to them. It fails if an allocation
/// fails.
pub fn choose_defaults(
    alloc: Global,
    machine: Machine<Dense<TableAction>, Dense<StateNo>>,
) -> Result<Machine<Dense<TableAction>, Dense<StateNo>>, OutOfMemory>
    requires { (state p : ℕ) → slice_get machine.defaults state ≡ Some (Some p) → ⊥ }
    ensures { IfOk result (HasDefaultsOf machine) }
{
    let mut parts = machine.into_parts();
    parts.defaults = take_defaults(alloc, &mut parts.actions, parts.rules.len())?;
    Ok(Machine::new(parts))
}

/// The defaults of all states. The entries that are equal to them are removed from the rows.
fn take_defaults(
    alloc: Global,
    actions: &mut Dense<TableAction>,
    rules: usize,
) -> Result<Vec<Option<RuleNo>>, OutOfMemory>
    requires { (state p : ℕ) → state < actions.old.rows
        → 1 ≤ reductions (dense_entry actions.old) actions.old.width state p → p ≤ rules }
    ensures states { IfOk result (λ defaults. length defaults.items ≡ actions.old.rows) }
    ensures taken { IfOk result (λ defaults. HaveDefaults actions.old.width actions.old actions.new
        defaults.items) }
{
    let Some(numbers) = rules.checked_add(1) else {
        return Err(OutOfMemory);
    };
    let states = actions.rows();
    if states > u32::MAX as usize {
        return Err(OutOfMemory);
    }
    let mut counts = vec![in alloc; 0usize; numbers]?;
    let mut defaults = Vec::with_capacity(alloc, states)?;
    let mut reduced = Vec::new(alloc);
    for state in 0..states {
        let state = StateNo(state as u32);
        list_rules(actions, state, &mut reduced)?;
        let default = most_frequent(&reduced, &mut counts);
        take_out(actions, state, default)?;
        defaults.push(default)?;
    }
    Ok(defaults)
}

/// Removes the reductions by a rule, if there is one, from a row. It fails if an allocation fails.
fn take_out(
    actions: &mut Dense<TableAction>,
    state: StateNo,
    default: Option<RuleNo>,
) -> Result<(), OutOfMemory>
    requires { state.0 < actions.old.rows }
    ensures rows { actions.new.rows ≡ actions.old.rows }
    ensures width { actions.new.width ≡ actions.old.width }
    ensures row { OnOk result ((t : ℕ) → dense_entry actions.new state.0 t
        ≡ out_by default (dense_entry actions.old state.0 t)) }
    ensures others { (r t : ℕ) → r ≢ state.0 → dense_entry actions.new r t ≡ dense_entry actions.old r t }
{
    let Some(rule) = default else {
        return Ok(());
    };
    leave_out(actions, state, rule)?;
    actions.share(state)
}
