use ly_base::StateNo;

/// The start states of a condition.
#[derive(Clone, Copy, Debug, PartialEq, Eq)]
pub struct Starts {
    /// The state within a line, if there is one.
    pub elsewhere: Option<StateNo>,
    /// The state at the start of a line, if there is one.
    pub at_line: Option<StateNo>,
}
