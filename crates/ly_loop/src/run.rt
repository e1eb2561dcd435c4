ghost use Rattle.std.specs.Prelude.{◌≤◌, ◌<◌, ◌≡◌, IfOk, OnOk};
ghost use Rattle.ly_pack.specs.Machine.{IsRuleNumber};
ghost use Rattle.ly_pack.specs.Steady.{run_bound};
ghost use Rattle.ly_loop.specs.Private.Run.{AreStates, EndsAs, IsCountable, MakesReduction, stack_of};

use ly_base::{OutOfMemory, RuleNo, StateNo, Sym};
use ly_pack::{MachineView, Rows, TableAction};

/// The number of reductions that a run may make.
pub(crate) const RUN_BOUND: usize = 100_000;

/// Reduces by a rule on a stack of states, its top last. Returns false if the run ends there, because a goto is missing
/// or the body extends past the bottom.
pub(crate) fn reduce<A: Rows<TableAction> + Drop, G: Rows<StateNo> + Drop>(
    machine: &MachineView<'_, A, G>,
    rule: RuleNo,
    stack: &mut Vec<StateNo>,
) -> Result<bool, OutOfMemory>
    requires countable { IsCountable machine.now }
    requires rule { IsRuleNumber machine.now rule.0 }
    requires states { AreStates machine.now stack.old.items }
    ensures made { IfOk result (λ made.
        MakesReduction machine.now rule.0 (stack_of stack.old.items) made (stack_of stack.new.items)) }
    ensures states { OnOk result (AreStates machine.now stack.new.items) }
{
    let rule = machine.rule(rule);
    let Some(left) = stack.len().checked_sub(rule.body_length) else {
        return Ok(false);
    };
    stack.truncate(left);
    let Some(&under) = stack.last() else {
        return Ok(false);
    };
    let Some(next) = machine.goto(under, rule.left) else {
        return Ok(false);
    };
    stack.push(next)?;
    Ok(true)
}

/// Whether the run on a terminal from a stack makes at most this many reductions.
pub(crate) fn ends_within<A: Rows<TableAction> + Drop, G: Rows<StateNo> + Drop>(
    machine: &MachineView<'_, A, G>,
    token: Sym,
    bound: usize,
    stack: &mut Vec<StateNo>,
) -> Result<bool, OutOfMemory>
    requires countable { IsCountable machine.now }
    requires token { token.0 < machine.now.terminals }
    requires bound { bound ≤ run_bound }
    requires states { AreStates machine.now stack.old.items }
    ensures { IfOk result (EndsAs machine.now token.0 (stack_of stack.old.items) bound) }
{
    for _made in 0..bound + 1 {
        let Some(&top) = stack.last() else {
            return Ok(true);
        };
        let TableAction::Reduce(rule) = machine.action(top, token) else {
            return Ok(true);
        };
        if !reduce(machine, rule, stack)? {
            return Ok(true);
        }
    }
    Ok(false)
}
