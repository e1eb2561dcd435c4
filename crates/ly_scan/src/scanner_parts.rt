use crate::starts::Starts;
use crate::state_rows::StateRows;
use ly_base::{Cut, RuleNo};

/// The parts of a scanner.
#[derive(Drop)]
pub struct ScannerParts {
    /// The start states of each condition.
    pub starts: Vec<Starts>,
    /// The transitions of the states. There is a column for each byte.
    pub rows: StateRows,
    /// The rule of each state, if it has one.
    pub rules: Vec<Option<RuleNo>>,
    /// The cut of each rule. A rule past the last has no trailing context.
    pub cuts: Vec<Cut>,
}
