ghost use Rattle.std.specs.Prelude.{IfOk};
ghost use Rattle.std.specs.Cow.{cow_slice_items};
ghost use Rattle.ly_loop.specs.Private.Entries.{AreAllEntries, AreAllGotos};
ghost use Rattle.ly_loop.specs.Private.Run.{IsCountable};

use ly_base::{OutOfMemory, StateNo};
use ly_pack::{Cell, MachineView, Rows, TableAction};
use std::alloc::Global;
use std::borrow::CowSlice;
use std::rc::Rc;

/// The actions of each state, except its default, in the order of terminals.
pub(crate) fn all_entries<'a, A: Rows<TableAction> + Drop, G: Rows<StateNo> + Drop>(
    alloc: Global,
    machine: &MachineView<'a, A, G>,
) -> Result<CowSlice<'a, Rc<Vec<Cell<TableAction>>>>, OutOfMemory>
    requires { IsCountable machine.now }
    ensures { IfOk result (λ rows. AreAllEntries machine.now (cow_slice_items rows)) }
{
    machine.actions().cells(alloc)
}

/// The gotos of each state, in the order of nonterminals.
pub(crate) fn all_gotos<'a, A: Rows<TableAction> + Drop, G: Rows<StateNo> + Drop>(
    alloc: Global,
    machine: &MachineView<'a, A, G>,
) -> Result<CowSlice<'a, Rc<Vec<Cell<StateNo>>>>, OutOfMemory>
    requires { IsCountable machine.now }
    ensures { IfOk result (λ rows. AreAllGotos machine.now (cow_slice_items rows)) }
{
    machine.gotos().cells(alloc)
}
