use ly_base::{RuleNo, StateNo};
use ly_pack::{Cell, MachineView, Rows, TableAction};
use std::marker::Model;
use std::rc::Rc;

/// A machine whose states and symbols can be counted by their numbers, with the actions and gotos of its states in
/// lists.
#[derive(Drop)]
pub(crate) struct Listed<'a, A: Rows<TableAction> + Drop, G: Rows<StateNo> + Drop> {
    /// The machine.
    pub(crate) machine: &'a MachineView<'a, A, G>,
    /// The actions of each state, except its default.
    pub(crate) entries: &'a [Rc<Vec<Cell<TableAction>>>],
    /// The gotos of each state.
    pub(crate) gotos: &'a [Rc<Vec<Cell<StateNo>>>],
    /// The rules by which each state reduces.
    pub(crate) reductions: &'a [Vec<RuleNo>],
}

impl<'a, A: Rows<TableAction> + Drop, G: Rows<StateNo> + Drop> Model for Listed<'a, A, G> {
    ghost use Rattle.ly_pack.specs.Machine as value;
    ghost use Rattle.ly_loop.specs.Private.Listed.{IsListed};

    ghost Value = { value.Machine };

    ghost view = { λ l. l.machine.now };

    ghost invariant = { λ l. IsListed l.machine.now l.entries.now l.gotos.now l.reductions.now };
}
