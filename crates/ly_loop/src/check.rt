ghost use Rattle.std.specs.Prelude.{◌≡◌, IfErr, IfOk, IsTrue, OnOk};
ghost use Rattle.ly_pack.specs.Machine.{states_of};
ghost use Rattle.ly_pack.specs.Steady.{IsSteady};
ghost use Rattle.ly_loop.specs.Endless.{AreTablesRefused};
ghost use Rattle.ly_loop.specs.Private.Edges.{AreDoubtful};
ghost use Rattle.ly_loop.specs.Private.Run.{IsCountable};

use crate::edges::targets;
use crate::entries::{all_entries, all_gotos};
use crate::fault::LoopFault;
use crate::known::{Edge, Known};
use crate::listed::Listed;
use crate::reductions::all_reductions;
use ly_base::{OutOfMemory, StateNo};
use ly_pack::{MachineView, Rows, TableAction};
use std::alloc::Global;

/// Checks that a parser's tables are steady: above each edge, the run on every terminal makes at most 100,000
/// reductions. The error names the first edge and the first terminal whose run makes more.
///
/// `Endless` if there is such a run, `OutOfMemory` if an allocation fails or there are more states or symbols than
/// their numbers can count.
pub fn steady<A: Rows<TableAction> + Drop, G: Rows<StateNo> + Drop>(
    alloc: Global,
    machine: &MachineView<'_, A, G>,
) -> Result<(), LoopFault>
    ensures ok { OnOk result (IsSteady machine.now) }
    ensures fault { IfErr result (AreTablesRefused machine.now) }
{
    if !is_countable(machine) {
        return Err(LoopFault::OutOfMemory);
    }
    let entries = all_entries(alloc, machine)?;
    let gotos = all_gotos(alloc, machine)?;
    let reductions = all_reductions(alloc, machine, &entries)?;
    let listed = Listed {
        machine,
        entries: &entries,
        gotos: &gotos,
        reductions: &reductions,
    };
    listed.all_steady(alloc)
}

impl<A: Rows<TableAction> + Drop, G: Rows<StateNo> + Drop> Listed<'_, A, G> {
    /// Whether all states are steady. Runs are followed separately on each terminal only above edges without a summary
    /// for all terminals.
    fn all_steady(&self, alloc: Global) -> Result<(), LoopFault>
        ensures ok { OnOk result (IsSteady self.now) }
        ensures fault { IfErr result (AreTablesRefused self.now) }
    {
        // the type's invariant guarantees that edges lead to states
        let _machine = self.machine;
        let doubtful = self.doubtful_edges(alloc)?;
        match self.first_passing(alloc, &doubtful)? {
            Some(passing) => Err(LoopFault::Endless {
                below: passing.edge.below,
                top: passing.edge.top,
                token: passing.token,
            }),
            None => Ok(()),
        }
    }

    /// The edges without a summary for all terminals.
    fn doubtful_edges(&self, alloc: Global) -> Result<Vec<Edge>, OutOfMemory>
        ensures { IfOk result (λ edges. AreDoubtful self.now (states_of self.now) edges.items) }
    {
        let mut known = Known::new(alloc);
        let mut tops = Vec::new(alloc);
        let mut doubtful = Vec::new(alloc);
        for number in 0..self.machine.states() {
            let below = StateNo(number as u32);
            targets(&self.entries[number], &self.gotos[number], &mut tops)?;
            self.push_doubtful(below, &tops, &mut known, &mut doubtful)?;
        }
        Ok(doubtful)
    }
}

/// Whether the numbers of states and symbols can count them.
fn is_countable<A: Rows<TableAction> + Drop, G: Rows<StateNo> + Drop>(
    machine: &MachineView<'_, A, G>,
) -> bool
    ensures { IsTrue result → IsCountable machine.now }
{
    let most = u32::MAX as usize;
    machine.states() <= most && machine.terminals() <= most && machine.nonterminals() <= most
}
