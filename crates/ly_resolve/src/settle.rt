ghost use Rattle.std.specs.Prelude.{◌≡◌, ◌<◌, ◌+◌, ◌↔◌, ◌++◌, length, map, All, AllPairs, IfOk, IsTrue, OnOk};
ghost use Rattle.ly_grammar.specs.Reduction.{KeepsUseful};
ghost use Rattle.ly_lookahead.specs.Lookaheads.{AreLookaheads};
ghost use Rattle.ly_lr0.specs.Automaton.{prefix_of, Lr0Automaton, IsLr0Automaton};
ghost use Rattle.ly_resolve.specs.Actions.{IsDone};
ghost use Rattle.ly_resolve.specs.Precedence.{judge_of};
ghost use Rattle.ly_resolve.specs.Private.Found.{AreTold};
ghost use Rattle.ly_resolve.specs.Private.Meetings.{all_told, AreMany, IsAskedBy};
ghost use Rattle.ly_resolve.specs.Resolved.{AreResolved, IsRow};
ghost use Rattle.ly_resolve.specs.Values.{action_from, conflict_from, terminal_action_from, IsInside};

use crate::action::{Action, TerminalAction};
use crate::action_rows::ActionRows;
use crate::asking::{asks_shift, find_reductions};
use crate::conflicts::Conflicts;
use crate::meeting::Meeting;
use crate::resolved::Resolved;
use crate::shifting::list_shifts;
use ly_base::{OutOfMemory, StateNo, Sym};
use ly_join::Spec;
use ly_lookahead::Lookaheads;
use ly_lr0::Lr0;
use std::alloc::{AllocError, Global};

/// Resolves the action of a parser in each state before each terminal, and finds the conflicts. Each state is visited
/// once, terminal by terminal.
///
/// `OutOfMemory` if an allocation fails, or if the number of a rule doesn't fit in 32 bits.
pub fn resolve<'a>(
    alloc: Global,
    spec: &'a Spec,
    lr0: &'a Lr0<'a>,
    lookaheads: &Lookaheads,
) -> Result<Resolved<'a>, OutOfMemory>
    requires useful { KeepsUseful spec.now.grammar lr0.now.grammar }
    requires lookaheads { AreLookaheads lr0.now lookaheads.now }
    ensures { IfOk result (AreResolved spec.now lr0.now) }
{
    let sources = Sources {
        spec,
        lr0,
        lookaheads,
    };
    let mut rows = ActionRows::with_capacity(alloc, lr0.states())?;
    let mut row = Vec::new(alloc);
    let mut told = Told {
        conflicts: Conflicts::new(alloc),
        conflict_free: true,
    };
    for state in 0..lr0.states() {
        resolve_state(alloc, &sources, StateNo(state as u32), &mut row, &mut told)?;
        rows.push(&row)?;
    }
    Ok(Resolved {
        spec,
        lr0,
        rows,
        conflicts: told.conflicts,
        conflict_free: told.conflict_free,
    })
}

/// The inputs of the resolution.
#[derive(Clone, Copy)]
struct Sources<'a, 'b> {
    /// The specification with the precedences.
    spec: &'a Spec,
    /// The automaton.
    lr0: &'a Lr0<'a>,
    /// The lookaheads of its complete rules.
    lookaheads: &'b Lookaheads,
}

/// What is collected about the entries resolved so far.
#[derive(Drop)]
struct Told {
    /// Their conflicts.
    conflicts: Conflicts,
    /// Whether at most one action was possible for each of them.
    conflict_free: bool,
}

/// Fills a row with the actions in a state, in the order of the terminals.
fn resolve_state(
    alloc: Global,
    sources: &Sources<'_, '_>,
    state: StateNo,
    row: &mut Vec<TerminalAction>,
    told: &mut Told,
) -> Result<(), OutOfMemory>
    requires lawful { IsLr0Automaton sources.now.lr0.now }
    requires state { state.0 < length sources.now.lr0.now.states }
    requires lookaheads { AreLookaheads sources.now.lr0.now sources.now.lookaheads.now }
    requires told { AreTold sources.now.lr0.now (judge_of sources.now.spec.now) state.0 0
        (map (conflict_from sources.now.lr0.now) told.old.conflicts) told.old.conflict_free }
    requires inside { All (IsInside sources.now.lr0.now) told.old.conflicts }
    ensures row { OnOk result (IsRow sources.now.lr0.now.grammar (judge_of sources.now.spec.now)
        (prefix_of sources.now.lr0.now state.0) (map terminal_action_from row.new.items)) }
    ensures told { OnOk result (AreTold sources.now.lr0.now (judge_of sources.now.spec.now) (state.0 + 1) 0
        (map (conflict_from sources.now.lr0.now) told.new.conflicts) told.new.conflict_free) }
    ensures inside { OnOk result (All (IsInside sources.now.lr0.now) told.new.conflicts) }
{
    if sources.lr0.complete(state).is_empty() {
        return Ok(list_shifts(sources.lr0, state, row)?);
    }
    row.clear();
    let mut reductions = Vec::new(alloc);
    let mut place = 0;
    for terminal in 0..sources.lr0.reduced().grammar().terminals() {
        let terminal = Sym(terminal);
        find_reductions(
            sources.lr0,
            sources.lookaheads,
            state,
            terminal,
            &mut reductions,
        )?;
        let meeting = Meeting {
            spec: sources.spec,
            terminal,
            shift: asks_shift(sources.lr0, state, terminal, &mut place),
            reductions: &reductions,
        };
        if let Some(action) = meeting.action() {
            row.push(TerminalAction { terminal, action })?;
            told.tell(&meeting, state, action)?;
        }
    }
    Ok(())
}

impl Told {
    /// Adds the conflicts of one more entry, if more than one action is possible.
    fn tell(
        &mut self,
        meeting: &Meeting<'_>,
        state: StateNo,
        choice: Action,
    ) -> Result<(), AllocError>
        requires rising { AllPairs (λ p q. p < q) meeting.now.reductions.now }
        requires choice { IsDone (IsAskedBy meeting.now.shift meeting.now.reductions.now)
            (λ p. judge_of meeting.now.spec.now p meeting.now.terminal.0) (action_from choice) }
        ensures told { OnOk result ((M : Lr0Automaton) → map (conflict_from M) self.new.conflicts
            ≡ map (conflict_from M) self.old.conflicts ++ all_told (prefix_of M state.0) meeting.now.terminal.0
            meeting.now.shift meeting.now.reductions.now
            (λ p. judge_of meeting.now.spec.now p meeting.now.terminal.0) (action_from choice)) }
        ensures inside { OnOk result ((M : Lr0Automaton) → state.0 < length M.states
            → meeting.now.terminal.0 < M.grammar.terminals → All (IsInside M) self.old.conflicts
            → All (IsInside M) self.new.conflicts) }
        ensures free { OnOk result (IsTrue self.new.conflict_free ↔ (IsTrue self.old.conflict_free
            × (AreMany meeting.now.shift meeting.now.reductions.now → ⊥))) }
    {
        if meeting.is_many() {
            self.conflict_free = false;
            meeting.push_conflicts(state, choice, &mut self.conflicts)?;
        }
        Ok(())
    }
}
