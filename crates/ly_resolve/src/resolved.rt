ghost use Rattle.std.specs.Prelude.{◌≡◌, ◌<◌, length, map, slice_get, Some, All};
ghost use Rattle.ly_grammar.specs.Reduction.{KeepsUseful};
ghost use Rattle.ly_resolve.specs.Resolved.{AreResolved};
ghost use Rattle.ly_resolve.specs.Values.{conflict_from, terminal_action_from, IsInside};

use crate::action::TerminalAction;
use crate::action_rows::ActionRows;
use crate::conflicts::Conflicts;
use ly_base::StateNo;
use ly_join::Spec;
use ly_lr0::Lr0;
use std::marker::Model;

/// The actions of a parser in each state of an automaton, and the conflicts.
#[derive(Drop)]
pub struct Resolved<'a> {
    /// The specification.
    pub(crate) spec: &'a Spec,
    /// Its automaton.
    pub(crate) lr0: &'a Lr0<'a>,
    /// For each state its actions, in the order of the terminals.
    pub(crate) rows: ActionRows,
    /// The conflicts, in their order.
    pub(crate) conflicts: Conflicts,
    /// Whether at most one action is possible everywhere.
    pub(crate) conflict_free: bool,
}

impl<'a> Model for Resolved<'a> {
    ghost use Rattle.std.specs.Prelude.{map, All};
    ghost use Rattle.ly_grammar.specs.Reduction.{KeepsUseful};
    ghost use Rattle.ly_resolve.specs.Private.ActionRows.{rows_from};
    ghost use Rattle.ly_resolve.specs.Resolved as value;
    ghost use Rattle.ly_resolve.specs.Resolved.{AreResolved};
    ghost use Rattle.ly_resolve.specs.Values.{conflict_from, terminal_action_from, resolved_from, IsInside};

    ghost Value = { value.Resolved };

    ghost view = { λ r. resolved_from r.spec.now r.lr0.now
        (rows_from r.rows.places.items r.rows.kept.items) r.conflicts r.conflict_free };

    ghost invariant = { λ r. KeepsUseful r.spec.now.grammar r.lr0.now.grammar
        × AreResolved r.spec.now r.lr0.now
        (resolved_from r.spec.now r.lr0.now
        (rows_from r.rows.places.items r.rows.kept.items) r.conflicts r.conflict_free)
        × All (IsInside r.lr0.now) r.conflicts };
}

impl<'a> Resolved<'a> {
    /// The specification.
    pub fn spec(&self) -> &'a Spec
        ensures these { result.now ≡ self.now.spec }
        ensures resolved { AreResolved self.now.spec self.now.automaton self.now }
    {
        self.spec
    }

    /// Its automaton.
    pub fn lr0(&self) -> &'a Lr0<'a>
        ensures these { result.now ≡ self.now.automaton }
        ensures useful { KeepsUseful self.now.spec.grammar self.now.automaton.grammar }
    {
        self.lr0
    }

    /// The actions in a state, in the order of the terminals. A terminal without an entry is an error.
    pub fn row(&self, state: StateNo) -> &[TerminalAction]
        requires { state.0 < length self.now.rows }
        ensures { slice_get self.now.rows state.0 ≡ Some (map terminal_action_from result.now) }
    {
        self.rows.row(state.0 as usize)
    }

    /// The conflicts, ordered by state, terminal, kind and rule.
    pub fn conflicts(&self) -> &Conflicts
        ensures these { map (conflict_from self.now.automaton) result.now ≡ self.now.conflicts }
        ensures inside { All (IsInside self.now.automaton) result.now }
    {
        &self.conflicts
    }

    /// Whether at most one action is possible in each state before each terminal.
    pub fn conflict_free(&self) -> bool
        ensures { result ≡ self.now.conflict_free }
    {
        self.conflict_free
    }
}
