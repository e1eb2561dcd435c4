ghost use Rattle.std.specs.Prelude.{◌≡◌, ◌≢◌, ◌<◌, Err, IfOk, MatchOption};
ghost use Rattle.ly_pack.specs.Machine.{action_of, states_of, IsMachine};
ghost use Rattle.ly_pack.specs.Steady.{IsSteady};
ghost use Rattle.ly_pack.specs.Values.{action_from};
ghost use Rattle.ly_parse.specs.Private.Shortcuts.{landing_of, AreShortcuts, IsFrom, Lands, Strands};
ghost use Rattle.ly_parse.specs.declared.fault.ParseFault.TheVariants as fault;

use crate::fault::ParseFault;
use crate::origin::{Numbers, Origin};
use crate::shortcut::{Shortcut, Situation};
use crate::shortcuts::Shortcuts;
use ly_base::{StateNo, Sym};
use ly_pack::{MachineView, Rows, TableAction};

/// Everything that a goto and the passes after it depend on, if a reduction has put a term above a state.
#[derive(Clone, Copy)]
pub(crate) struct Landing {
    /// The state.
    pub(crate) below: StateNo,
    /// The left side of the term.
    pub(crate) left: Sym,
    /// The next terminal.
    pub(crate) terminal: Sym,
}

impl Origin for Landing {
    ghost leads = { Lands };

    ghost origin_of = { landing_of };

    fn numbers(self) -> Numbers {
        Numbers {
            below: self.below.0,
            above: self.left.0,
            terminal: self.terminal.0,
        }
    }
}

impl Shortcut<Landing> {
    /// The shortcut from a landing: its goto, and the passes after it. None if a goto is missing.
    pub(crate) fn behind<A: Rows<TableAction> + Drop, G: Rows<StateNo> + Drop>(
        machine: &MachineView<'_, A, G>,
        from: Landing,
    ) -> Option<Shortcut<Landing>>
        requires machine { IsMachine machine.now }
        requires steady { IsSteady machine.now }
        requires below { from.below.0 < states_of machine.now }
        requires left { from.left.0 < machine.now.nonterminals }
        requires terminal { from.terminal.0 < machine.now.terminals }
        ensures { MatchOption result (Strands machine.now from) (λ s.
            IsFrom (Lands machine.now) from s) }
    {
        let Some(top) = machine.goto(from.below, from.left) else {
            return None;
        };
        let situation = Situation {
            below: from.below,
            top,
            terminal: from.terminal,
        };
        let Some(passes) = Shortcut::find(machine, situation) else {
            return None;
        };
        Some(Shortcut {
            from,
            state: passes.state,
            action: passes.action,
        })
    }
}

impl Shortcuts<Landing> {
    /// The shortcut from a landing, which is then cached. It fails with `FaultyTables` if a goto is missing.
    pub(crate) fn land<A: Rows<TableAction> + Drop, G: Rows<StateNo> + Drop>(
        &mut self,
        machine: &MachineView<'_, A, G>,
        from: Landing,
    ) -> Result<Shortcut<Landing>, ParseFault>
        requires machine { IsMachine machine.now }
        requires steady { IsSteady machine.now }
        requires below { from.below.0 < states_of machine.now }
        requires left { from.left.0 < machine.now.nonterminals }
        requires terminal { from.terminal.0 < machine.now.terminals }
        requires kept { AreShortcuts landing_of (Lands machine.now) self.old }
        ensures ok { IfOk result (λ s. IsFrom (Lands machine.now) from s) }
        ensures faulty { result ≡ Err fault.FaultyTables → Strands machine.now from }
        ensures not_over { result ≢ Err fault.Over }
        ensures kept { AreShortcuts landing_of (Lands machine.now) self.new }
    {
        if let Some(shortcut) = self.get(from) {
            return Ok(shortcut);
        }
        let state = self.land_by_tables(machine, from.below, from.left, from.terminal)?;
        let action = action_there(machine, state, from.terminal);
        Ok(Shortcut {
            from,
            state,
            action,
        })
    }

    /// The state that the landing of a term of this left side above this state leads to, computed from the tables. The
    /// shortcut is then cached.
    #[inline(never)] // so that a cached shortcut gets the registers; a single number stays in one
    fn land_by_tables<A: Rows<TableAction> + Drop, G: Rows<StateNo> + Drop>(
        &mut self,
        machine: &MachineView<'_, A, G>,
        below: StateNo,
        left: Sym,
        terminal: Sym,
    ) -> Result<StateNo, ParseFault>
        requires machine { IsMachine machine.now }
        requires steady { IsSteady machine.now }
        requires below { below.0 < states_of machine.now }
        requires left { left.0 < machine.now.nonterminals }
        requires terminal { terminal.0 < machine.now.terminals }
        requires kept { AreShortcuts landing_of (Lands machine.now) self.old }
        ensures ok { IfOk result (λ s. Lands machine.now (record {
          below = below;
          left = left;
          terminal = terminal;
        }) s.0 (action_of machine.now s.0 terminal.0)) }
        ensures known { IfOk result (λ s. s.0 < states_of machine.now) }
        ensures faulty { result ≡ Err fault.FaultyTables → Strands machine.now (record {
          below = below;
          left = left;
          terminal = terminal;
        }) }
        ensures not_over { result ≢ Err fault.Over }
        ensures kept { AreShortcuts landing_of (Lands machine.now) self.new }
    {
        let from = Landing {
            below,
            left,
            terminal,
        };
        let Some(shortcut) = Shortcut::behind(machine, from) else {
            return Err(ParseFault::FaultyTables);
        };
        self.keep(shortcut)?;
        Ok(shortcut.state)
    }
}

/// The action of a state before a terminal, from the tables.
#[inline(never)] // like `land_by_tables`
fn action_there<A: Rows<TableAction> + Drop, G: Rows<StateNo> + Drop>(
    machine: &MachineView<'_, A, G>,
    state: StateNo,
    terminal: Sym,
) -> TableAction
    requires state { state.0 < states_of machine.now }
    requires terminal { terminal.0 < machine.now.terminals }
    ensures { action_from result ≡ action_of machine.now state.0 terminal.0 }
{
    machine.action(state, terminal)
}
