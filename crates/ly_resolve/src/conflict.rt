use crate::action::Action;
use ly_base::{RuleNo, StateNo, Sym};

/// The kinds of conflicts.
#[derive(Clone, Copy, Debug, PartialEq, Eq)]
pub enum ConflictKind {
    /// A shift against a reduction, if the terminal or the rule has no precedence.
    ShiftReduce,
    /// A reduction against an earlier one, neither of them overruled by a shift.
    ReduceReduce,
}

/// A conflict: a rule that isn't chosen in a state before a terminal.
#[derive(Clone, Copy, Debug, PartialEq, Eq)]
pub struct Conflict {
    /// The state.
    pub state: StateNo,
    /// The terminal.
    pub terminal: Sym,
    /// The kind of the conflict.
    pub kind: ConflictKind,
    /// The number of the rule that isn't chosen.
    pub rule: RuleNo,
    /// The action that is chosen.
    pub choice: Action,
}
