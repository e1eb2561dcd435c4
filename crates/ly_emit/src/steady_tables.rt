ghost use Rattle.std.specs.Prelude.{IfErr, IfOk};
ghost use Rattle.ly_emit.specs.Endless.{IsRefusedFor};
ghost use Rattle.ly_emit.specs.Tables.{AreShapesWithin, IsMachineOf};
ghost use Rattle.ly_pack.specs.Steady.{IsSteady};

use crate::tables::machine;
use ly_base::StateNo;
use ly_loop::{LoopFault, steady};
use ly_pack::{Dense, Machine, TableAction, choose_defaults};
use ly_resolve::Resolved;
use std::alloc::Global;

/// The tables of a parser's actions, with default reductions. Every run on them ends.
///
/// `Endless` names the first edge and the first terminal whose run makes more reductions than are allowed.
/// `OutOfMemory` if an allocation fails, or if a number is too large for tables.
pub fn steady_machine(
    alloc: Global,
    resolved: &Resolved<'_>,
) -> Result<Machine<Dense<TableAction>, Dense<StateNo>>, LoopFault>
    requires { AreShapesWithin resolved.now.spec }
    ensures tables { IfOk result (IsMachineOf resolved.now.spec resolved.now.automaton) }
    ensures steady { IfOk result IsSteady }
    ensures endless { IfErr result (IsRefusedFor resolved.now.spec resolved.now.automaton) }
{
    let tables = choose_defaults(alloc, machine(alloc, resolved)?)?;
    // the call's contract guarantees that no entries are outside of the rows
    let _states = tables.states();
    steady(alloc, &tables.view())?;
    Ok(tables)
}
