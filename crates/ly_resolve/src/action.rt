use ly_base::{RuleNo, Sym};

/// What a parser does before a terminal.
#[derive(Clone, Copy, Debug, PartialEq, Eq)]
pub enum Action {
    /// Shift the terminal. For the end: accept.
    Shift,
    /// Reduce by the rule with this number.
    Reduce(RuleNo),
    /// Reject the terminal, because it is nonassociative.
    Error,
}

/// The action in a state before a terminal.
#[derive(Clone, Copy, Debug, PartialEq, Eq)]
pub struct TerminalAction {
    /// The terminal.
    pub terminal: Sym,
    /// The action.
    pub action: Action,
}
