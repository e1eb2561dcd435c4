use ly_base::{RuleNo, StateNo};

/// An entry of a parser's tables: its action before a terminal.
#[derive(Clone, Copy, Debug, PartialEq, Eq)]
pub enum TableAction {
    /// Shift the terminal and go to this state.
    Shift(StateNo),
    /// Reduce by this rule, counted from 1.
    Reduce(RuleNo),
    /// Accept.
    Accept,
    /// Reject the terminal.
    Error,
}
