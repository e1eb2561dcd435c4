//! The terminals that tables would read next, or accept if it is the end: each is run on a copy of the stack until this
//! is known, or shares the last run.
ghost use Rattle.std.specs.Prelude.{◌<◌, All, IfOk, map};
ghost use Rattle.ly_pack.specs.Machine.{states_of};
ghost use Rattle.ly_pack.specs.Steady.{IsSteady};
ghost use Rattle.ly_pack.specs.SteadyLaws.{IsStack};
ghost use Rattle.ly_parse.specs.Private.Copied.{states_in};
ghost use Rattle.ly_parse.specs.Expected.{AreExpected};

use crate::copied::Copied;
use crate::last_run::LastRun;
use ly_base::{OutOfMemory, StateNo, Sym};
use ly_pack::{MachineView, Rows, TableAction};
use std::alloc::Global;

/// The terminals that a parser's tables would read, or accept if it is the end, from a stack of states, in rising
/// order. The stack isn't changed.
#[inline(never)] // so that a token that is read gets the registers
pub(crate) fn expected<A: Rows<TableAction> + Drop, G: Rows<StateNo> + Drop>(
    alloc: Global,
    machine: &MachineView<'_, A, G>,
    stack: &[StateNo],
) -> Result<Vec<Sym>, OutOfMemory>
    requires steady { IsSteady machine.now }
    requires states { All (λ s. s < states_of machine.now) (states_in stack.now) }
    requires stack { IsStack machine.now (states_in stack.now) }
    ensures { IfOk result (λ ts. AreExpected machine.now (states_in stack.now) (map (λ t. t.0) ts.items)) }
{
    let mut last = LastRun::new(alloc, machine.states())?;
    let mut copied = Copied::new(alloc, stack);
    let mut list = Vec::new(alloc);
    for number in 0..machine.terminals() {
        let Ok(number) = u32::try_from(number) else {
            return Err(OutOfMemory); // there are more terminals than numbers
        };
        let terminal = Sym(number);
        if last.is_expected(machine, terminal, &mut copied)? {
            list.push(terminal)?;
        }
    }
    Ok(list)
}
