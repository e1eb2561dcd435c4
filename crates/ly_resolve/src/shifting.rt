//! The actions in a state in which no rule is complete: shifts.
ghost use Rattle.std.specs.Prelude.{◌≡◌, ◌<◌, ◌≤◌, [], length, map, OnOk};
ghost use Rattle.ly_lr0.specs.Automaton.{prefix_of, state_at, IsLr0Automaton};
ghost use Rattle.ly_resolve.specs.Actions.{Judge};
ghost use Rattle.ly_resolve.specs.Resolved.{IsRow};
ghost use Rattle.ly_resolve.specs.Values.{terminal_action_from};
ghost use Rattle.ly_resolve.specs.declared.action.Action.TheVariants.{Shift};

use crate::action::{Action, TerminalAction};
use crate::asking::asks_shift;
use ly_base::{StateNo, Sym};
use ly_join::Symbol;
use ly_lr0::Lr0;
use std::alloc::AllocError;

/// Fills a row with the shifts of a state in which no rule is complete: that of the end after the start symbol, and
/// those of the state's transitions over terminals. So it needs no look at each terminal.
pub(crate) fn list_shifts(
    lr0: &Lr0<'_>,
    state: StateNo,
    row: &mut Vec<TerminalAction>,
) -> Result<(), AllocError>
    requires lawful { IsLr0Automaton lr0.now }
    requires state { state.0 < length lr0.now.states }
    requires none { (state_at lr0.now state.0).complete ≡ [] }
    ensures { OnOk result ((judge : Judge) → IsRow lr0.now.grammar judge (prefix_of lr0.now state.0)
        (map terminal_action_from row.new.items)) }
{
    row.clear();
    if asks_shift(lr0, state, Sym(0), &mut 0) {
        row.push(shift_of(Sym(0)))?;
    }
    for transition in lr0.shifts(state) {
        if let Symbol::Terminal(terminal) = transition.symbol {
            row.push(shift_of(terminal))?;
        }
    }
    Ok(())
}

/// The shift of a terminal.
fn shift_of(terminal: Sym) -> TerminalAction
    ensures { result ≡ record { terminal = terminal; action = Shift } }
{
    TerminalAction {
        terminal,
        action: Action::Shift,
    }
}
