//! A run on a terminal, and the terminals that share its outcome.
ghost use Rattle.std.specs.Prelude.{◌≡◌, ◌<◌, All, IfOk, IfSome, IsTrue, None, OnOk};
ghost use Rattle.ly_pack.specs.Machine.{states_of, IsMachine};
ghost use Rattle.ly_pack.specs.Values.{action_from};
ghost use Rattle.ly_pack.specs.Steady.{IsSteady};
ghost use Rattle.ly_pack.specs.SteadyLaws.{IsStack};
ghost use Rattle.ly_parse.specs.Private.LastRun.{IsAlike, IsKnown, IsLast, IsShared, IsTold};

use crate::copied::Copied;
use ly_base::{OutOfMemory, SparseSet, StateNo, Sym};
use ly_pack::{MachineView, Rows, TableAction};
use std::alloc::{AllocError, Global};

/// The last run on a terminal from the whole of a stack. Terminals on which the states that it visited do the same
/// share its outcome.
#[derive(Drop)]
pub(crate) struct LastRun {
    /// The terminal. None before the first run.
    terminal: Option<Sym>,
    /// Whether it would be read, or accepted if it is the end.
    is_expected: bool,
    /// The states that were on top.
    met: SparseSet,
}

impl LastRun {
    /// Without a run, for this many states.
    pub(crate) fn new(alloc: Global, states: usize) -> Result<Self, AllocError>
        ensures none { IfOk result (λ l. l.terminal ≡ None) }
        ensures room { IfOk result (λ l. l.met.below ≡ states) }
    {
        Ok(LastRun {
            terminal: None,
            is_expected: false,
            met: SparseSet::new(alloc, states)?,
        })
    }

    /// Whether a terminal would be read, or accepted if it is the end, from the whole of a stack. All runs are from
    /// this stack.
    pub(crate) fn is_expected<A: Rows<TableAction> + Drop, G: Rows<StateNo> + Drop>(
        &mut self,
        machine: &MachineView<'_, A, G>,
        terminal: Sym,
        copied: &mut Copied<'_>,
    ) -> Result<bool, OutOfMemory>
        requires machine { IsMachine machine.now }
        requires steady { IsSteady machine.now }
        requires terminal { terminal.0 < machine.now.terminals }
        requires states { All (λ s. s < states_of machine.now) copied.old.whole }
        requires stack { IsStack machine.now copied.old.whole }
        requires last { IsLast machine.now copied.old.whole self.old }
        ensures expected { IfOk result (IsTold machine.now terminal.0 copied.old.whole) }
        ensures last { OnOk result (IsLast machine.now copied.old.whole self.new) }
        ensures whole { OnOk result (copied.new.whole ≡ copied.old.whole) }
    {
        if let Some(is_expected) = self.known(machine, terminal) {
            return Ok(is_expected);
        }
        let is_expected = run(machine, terminal, copied, &mut self.met)?;
        self.terminal = Some(terminal);
        self.is_expected = is_expected;
        Ok(is_expected)
    }

    /// Whether a terminal is expected, if it shares the outcome of the run.
    fn known<A: Rows<TableAction> + Drop, G: Rows<StateNo> + Drop>(
        &self,
        machine: &MachineView<'_, A, G>,
        terminal: Sym,
    ) -> Option<bool>
        requires terminal { terminal.0 < machine.now.terminals }
        requires last { IfSome self.now.terminal (λ t. t.0 < machine.now.terminals) }
        requires met { self.now.met.below ≡ states_of machine.now }
        ensures { IfSome result (IsKnown machine.now self.now terminal.0) }
    {
        let Some(last) = self.terminal else {
            return None;
        };
        for &state in self.met.members() {
            let state = StateNo(state);
            let before = machine.action(state, last);
            let action = machine.action(state, terminal);
            if !does_the_same(before, action) {
                return None;
            }
        }
        Some(self.is_expected)
    }
}

/// Whether runs continue, or end, alike by two actions, whatever the target of a shift.
fn does_the_same(one: TableAction, other: TableAction) -> bool
    ensures { IsTrue result → IsAlike (action_from one) (action_from other) }
{
    match (one, other) {
        (TableAction::Shift(_), TableAction::Shift(_)) => true,
        (one, other) => one == other,
    }
}

/// Runs on a terminal from the whole of a stack until it is known whether it would be read, or accepted if it is the
/// end. Notes the states that are on top.
fn run<A: Rows<TableAction> + Drop, G: Rows<StateNo> + Drop>(
    machine: &MachineView<'_, A, G>,
    terminal: Sym,
    copied: &mut Copied<'_>,
    met: &mut SparseSet,
) -> Result<bool, OutOfMemory>
    requires machine { IsMachine machine.now }
    requires steady { IsSteady machine.now }
    requires terminal { terminal.0 < machine.now.terminals }
    requires states { All (λ s. s < states_of machine.now) copied.old.whole }
    requires stack { IsStack machine.now copied.old.whole }
    requires met { met.old.below ≡ states_of machine.now }
    ensures shared { IfOk result (IsShared machine.now terminal.0 copied.old.whole met.new.members) }
    ensures met { met.new.below ≡ met.old.below }
    ensures whole { OnOk result (copied.new.whole ≡ copied.old.whole) }
{
    copied.restart();
    met.clear();
    loop {
        let top = copied.top();
        met.insert(top.0);
        match machine.action(top, terminal) {
            TableAction::Shift(_) => return Ok(true),
            TableAction::Accept => return Ok(copied.has_term()),
            TableAction::Error => return Ok(false),
            TableAction::Reduce(rule) => {
                if !copied.reduce(machine, rule)? {
                    return Ok(false);
                }
            }
        }
    }
}
