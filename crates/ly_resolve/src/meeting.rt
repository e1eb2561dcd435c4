ghost use Rattle.std.specs.Prelude.{◌≡◌, ◌<◌, ◌++◌, ◌↔◌, ℕ, length, map, All, AllPairs, Contains, IsTrue, MatchOption};
ghost use Rattle.std.specs.Prelude.{OnOk};
ghost use Rattle.ly_lr0.specs.Automaton.{Lr0Automaton, prefix_of};
ghost use Rattle.ly_resolve.specs.Actions as spec;
ghost use Rattle.ly_resolve.specs.Actions.{Stays, IsDone, reduce, to_error, to_reduce};
ghost use Rattle.ly_resolve.specs.Precedence.{judge_of};
ghost use Rattle.ly_resolve.specs.Private.Meetings.{all_told, is_counted, told, AreMany, IsAskedBy};
ghost use Rattle.ly_resolve.specs.Private.Verdicts.{verdict_from};
ghost use Rattle.ly_resolve.specs.Values.{action_from, conflict_from, kind_from, IsInside};

use crate::action::Action;
use crate::conflict::{Conflict, ConflictKind};
use crate::conflicts::Conflicts;
use crate::precedence_verdict::{PrecedenceVerdict, judge};
use ly_base::{RuleNo, StateNo, Sym};
use ly_join::Spec;
use std::alloc::AllocError;

/// The possible actions in a state before a terminal.
#[derive(Clone, Copy)]
pub(crate) struct Meeting<'a> {
    /// The specification with the precedences.
    pub(crate) spec: &'a Spec,
    /// The terminal.
    pub(crate) terminal: Sym,
    /// Whether a shift is possible.
    pub(crate) shift: bool,
    /// The rules by which a reduction is possible, in rising order.
    pub(crate) reductions: &'a [u32],
}

impl<'a> Meeting<'a> {
    /// Whether two actions are possible.
    pub(crate) fn is_many(&self) -> bool
        ensures { IsTrue result ↔ AreMany self.now.shift self.now.reductions.now }
    {
        let least = if self.shift { 1 } else { 2 };
        self.reductions.len() >= least
    }

    /// The chosen action, if any action is possible.
    pub(crate) fn action(&self) -> Option<Action>
        requires { AllPairs (λ p q. p < q) self.now.reductions.now }
        ensures { MatchOption result ((a : spec.Action) → IsAskedBy self.now.shift self.now.reductions.now a → ⊥)
            (λ a. IsDone (IsAskedBy self.now.shift self.now.reductions.now)
            (λ p. judge_of self.now.spec.now p self.now.terminal.0) (action_from a)) }
    {
        if let Some(rule) = self.earliest() {
            return Some(Action::Reduce(RuleNo(rule)));
        }
        if !self.shift {
            return None;
        }
        if self.is_refused() {
            Some(Action::Error)
        } else {
            Some(Action::Shift)
        }
    }

    /// The earliest reduction that stays.
    fn earliest(&self) -> Option<u32>
        requires { AllPairs (λ p q. p < q) self.now.reductions.now }
        ensures { MatchOption result
            ((p : ℕ) → Stays (IsAskedBy self.now.shift self.now.reductions.now)
            (λ q. judge_of self.now.spec.now q self.now.terminal.0) p → ⊥)
            (λ p. IsDone (IsAskedBy self.now.shift self.now.reductions.now)
            (λ q. judge_of self.now.spec.now q self.now.terminal.0) (reduce p)) }
    {
        for rule in self.reductions {
            if self.stays(*rule) {
                return Some(*rule);
            }
        }
        None
    }

    /// Whether precedence rejects both the shift and some reduction.
    fn is_refused(&self) -> bool
        ensures { IsTrue result ↔ ((p : ℕ) × Contains self.now.reductions.now p
            × (judge_of self.now.spec.now p self.now.terminal.0 ≡ to_error)) }
    {
        for rule in self.reductions {
            if self.verdict(*rule) == PrecedenceVerdict::Error {
                return true;
            }
        }
        false
    }

    /// Whether a reduction stays: precedence prefers it, or no shift is possible.
    fn stays(&self, rule: u32) -> bool
        ensures { IsTrue result
            ↔ (IsTrue self.now.shift → judge_of self.now.spec.now rule self.now.terminal.0 ≡ to_reduce) }
    {
        !self.shift || self.verdict(rule) == PrecedenceVerdict::Reduce
    }

    /// The verdict of precedence on a reduction against the shift.
    fn verdict(&self, rule: u32) -> PrecedenceVerdict
        ensures { verdict_from result ≡ judge_of self.now.spec.now rule self.now.terminal.0 }
    {
        judge(self.spec, rule as usize, self.terminal)
    }

    /// Adds the conflicts, by kind and then by rule.
    pub(crate) fn push_conflicts(
        &self,
        state: StateNo,
        choice: Action,
        conflicts: &mut Conflicts,
    ) -> Result<(), AllocError>
        ensures told { OnOk result ((M : Lr0Automaton) → map (conflict_from M) conflicts.new
            ≡ map (conflict_from M) conflicts.old ++ all_told (prefix_of M state.0) self.now.terminal.0
            self.now.shift self.now.reductions.now (λ p. judge_of self.now.spec.now p self.now.terminal.0)
            (action_from choice)) }
        ensures inside { OnOk result ((M : Lr0Automaton) → state.0 < length M.states
            → self.now.terminal.0 < M.grammar.terminals → All (IsInside M) conflicts.old
            → All (IsInside M) conflicts.new) }
    {
        self.push_kind(ConflictKind::ShiftReduce, state, choice, conflicts)?;
        self.push_kind(ConflictKind::ReduceReduce, state, choice, conflicts)
    }

    /// Adds the conflicts of a kind.
    fn push_kind(
        &self,
        kind: ConflictKind,
        state: StateNo,
        choice: Action,
        conflicts: &mut Conflicts,
    ) -> Result<(), AllocError>
        ensures told { OnOk result ((M : Lr0Automaton) → map (conflict_from M) conflicts.new
            ≡ map (conflict_from M) conflicts.old ++ told (prefix_of M state.0) self.now.terminal.0
            self.now.shift self.now.reductions.now (λ p. judge_of self.now.spec.now p self.now.terminal.0)
            (action_from choice) (kind_from kind)) }
        ensures inside { OnOk result ((M : Lr0Automaton) → state.0 < length M.states
            → self.now.terminal.0 < M.grammar.terminals → All (IsInside M) conflicts.old
            → All (IsInside M) conflicts.new) }
    {
        for rule in self.reductions {
            if self.is_counted(kind, choice, *rule) {
                conflicts.push(Conflict {
                    state,
                    terminal: self.terminal,
                    kind,
                    rule: RuleNo(*rule),
                    choice,
                })?;
            }
        }
        Ok(())
    }

    /// Whether a reduction is counted as a conflict with the chosen action.
    fn is_counted(&self, kind: ConflictKind, choice: Action, rule: u32) -> bool
        ensures { result ≡ is_counted self.now.shift (λ p. judge_of self.now.spec.now p self.now.terminal.0)
            (action_from choice) (kind_from kind) rule }
    {
        match kind {
            ConflictKind::ShiftReduce => self.shift
                && self.verdict(rule) == PrecedenceVerdict::Unsettled,
            ConflictKind::ReduceReduce => choice != Action::Reduce(RuleNo(rule))
                && self.stays(rule),
        }
    }
}
