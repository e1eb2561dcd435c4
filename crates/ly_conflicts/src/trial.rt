//! What a precedence for one more token resolves: the conflicts are resolved again with it, by the rules of
//! `ly_resolve`.
//!
//! The precedence is declared before all others, so it is lower than they are. Only the verdicts on conflicts change,
//! since these are the pairs of a shift and a rule of which one has no precedence.
use ly_analysis::{Places, last_terminal, precedence_of, rank_of};
use ly_base::{OutOfMemory, StateNo, Sym};
use ly_join::{Associativity, Spec};
use ly_resolve::{Action, Conflict, ConflictKind, Conflicts};
use std::alloc::Global;

/// A precedence that is tried.
#[derive(Clone, Copy)]
pub(crate) struct Trial<'t> {
    /// The specification.
    pub(crate) spec: &'t Spec,
    /// The token that gets the precedence.
    pub(crate) terminal: Sym,
    /// How it associates.
    pub(crate) associativity: Associativity,
    /// For each rule whether it gets the precedence too.
    pub(crate) rules: &'t [bool],
}

/// What is left of the conflicts.
#[derive(Drop)]
pub(crate) struct Left {
    /// For each conflict whether there still is one in its state before its terminal.
    pub(crate) marks: Vec<bool>,
    /// The number of conflicts.
    pub(crate) count: usize,
}

/// The verdict on a shift against a rule.
#[derive(Clone, Copy, PartialEq, Eq)]
enum Verdict {
    /// None, since one of them has no precedence.
    Unresolved,
    /// The rule is possible.
    Reduce,
    /// It isn't.
    Dropped,
}

/// The possible actions in a state before a terminal, as far as they are in conflict.
#[derive(Clone, Copy)]
struct Cell {
    /// The state.
    state: StateNo,
    /// The terminal.
    terminal: Sym,
    /// The number of rules in conflict with the shift.
    unresolved: usize,
    /// The number of rules that precedence prefers to the shift, or of all if there is no shift.
    possible: usize,
}

/// For each rule whether it gets its precedence from a token: by its `%prec`, or as the last terminal of its body.
pub(crate) fn rules_ranked_by(
    alloc: Global,
    spec: &Spec,
    places: &Places,
    terminal: Sym,
) -> Result<Vec<bool>, OutOfMemory> {
    let mut ranked = Vec::new(alloc);
    for rule in 0..spec.notes().len() {
        ranked.push(ranking_terminal(spec, places, rule) == Some(terminal))?;
    }
    Ok(ranked)
}

/// The terminal that gives a rule its precedence, if that has one.
pub(crate) fn ranking_terminal(spec: &Spec, places: &Places, rule: usize) -> Option<Sym> {
    if !places.has_prec(rule) {
        return last_terminal(spec, rule);
    }
    let named = spec
        .terminals()
        .iter()
        .position(|name| places.is_prec_of(rule, name))?;
    Some(Sym(u32::try_from(named).ok()?))
}

impl Trial<'_> {
    /// Resolves the conflicts again.
    pub(crate) fn left_of(
        &self,
        alloc: Global,
        conflicts: &Conflicts,
    ) -> Result<Left, OutOfMemory> {
        let mut left = Left {
            marks: vec![in alloc; false; conflicts.len()]?,
            count: 0,
        };
        let (mut start, mut run) = (0, 0);
        let mut cell: Option<Cell> = None;
        for index in 0..conflicts.len() {
            let Some(conflict) = conflicts.get_near(index, &mut run) else {
                break;
            };
            let same = cell.is_some_and(|cell| cell.has(&conflict));
            if !same {
                left.add(start, index, cell);
                start = index;
            }
            let known = if same { cell } else { None };
            cell = Some(self.with(known.unwrap_or(Cell::of(&conflict)), &conflict));
        }
        left.add(start, conflicts.len(), cell);
        Ok(left)
    }

    /// The actions of a conflict's state before its terminal, with this conflict.
    fn with(&self, cell: Cell, conflict: &Conflict) -> Cell {
        let mut cell = cell;
        let verdict = match conflict.kind {
            ConflictKind::ReduceReduce => Verdict::Reduce,
            ConflictKind::ShiftReduce => self.verdict(conflict),
        };
        match verdict {
            Verdict::Unresolved => cell.unresolved = cell.unresolved.saturating_add(1),
            Verdict::Reduce => cell.possible = cell.possible.saturating_add(1),
            Verdict::Dropped => {}
        }
        cell
    }

    /// The verdict on the shift and the rule of a conflict, of which one had no precedence.
    fn verdict(&self, conflict: &Conflict) -> Verdict {
        let rule = conflict.rule.0 as usize;
        let by_rule = self.rules.get(rule) == Some(&true);
        let by_terminal = conflict.terminal == self.terminal;
        let has_rank = by_rule || precedence_of(self.spec, rule).is_some();
        if !has_rank || !by_terminal && rank_of(self.spec, conflict.terminal).is_none() {
            return Verdict::Unresolved;
        }
        match (by_rule, by_terminal, self.associativity) {
            (true, true, Associativity::Left) => Verdict::Reduce,
            (false, true, _) => Verdict::Reduce,
            _ => Verdict::Dropped,
        }
    }
}

impl Cell {
    /// The state of a conflict before its terminal, with the rule that is chosen there.
    fn of(conflict: &Conflict) -> Cell {
        Cell {
            state: conflict.state,
            terminal: conflict.terminal,
            unresolved: 0,
            possible: matches!(conflict.choice, Action::Reduce(_)) as usize,
        }
    }

    /// Whether a conflict is in this state before this terminal.
    fn has(&self, conflict: &Conflict) -> bool {
        self.state == conflict.state && self.terminal == conflict.terminal
    }

    /// The number of conflicts: of possible rules the first is chosen.
    fn conflicts(&self) -> usize {
        self.unresolved
            .saturating_add(self.possible.saturating_sub(1))
    }
}

impl Left {
    /// Adds what is left in a state before a terminal, whose conflicts had these indices.
    fn add(&mut self, start: usize, end: usize, cell: Option<Cell>) {
        let conflicts = match cell {
            Some(cell) => cell.conflicts(),
            None => 0,
        };
        self.count = self.count.saturating_add(conflicts);
        if conflicts > 0 {
            for index in start..end {
                if let Some(mark) = self.marks.get_mut(index) {
                    *mark = true;
                }
            }
        }
    }
}
